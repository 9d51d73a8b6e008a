// A read line: one of six records, each with the parts of the text that its fields are.
#[derive(Clone, Copy)]
pub enum Record<'a> {
    Plant {
        kind: &'a [u8],
    },
    Place {
        name: &'a [u8],
        tokens: &'a [u8],
        limit: &'a [u8],
    },
    Move {
        name: &'a [u8],
        letter: &'a [u8],
    },
    Arc {
        place: &'a [u8],
        transition: &'a [u8],
        take: &'a [u8],
        give: &'a [u8],
    },
    Fixed {
        name: &'a [u8],
        sum: &'a [u8],
        bound: &'a [u8],
    },
    Rule {
        name: &'a [u8],
        sum: &'a [u8],
        bound: &'a [u8],
    },
}
