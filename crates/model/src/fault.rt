// Why a call was refused, and where: what a person needs to find the spot.
ghost use Rattle.std.specs.Prelude.{◌≡◌, Some};
ghost use Rattle.model.specs.Plant.{fault_of, setting_fault, refuse_unless};

use crate::refusal::Refusal;

// A place of a net, with the layer and the row of a control place; both are 0 on ground places.
#[derive(Clone, Copy, PartialEq, Eq, Debug)]
pub struct Spot {
    pub place: usize,
    pub layer: usize,
    pub row: usize,
}

// The refusal, the move that was asked for (none for a setting), and the place that it is for, if it is for one.
#[derive(Clone, Copy, PartialEq, Eq, Debug)]
pub struct Fault {
    pub refusal: Refusal,
    pub transition: Option<usize>,
    pub spot: Option<Spot>,
}

impl Fault {
    // Of a setting: for no move and no place.
    pub fn of_setting(refusal: Refusal) -> Self
        ensures { result ≡ setting_fault refusal }
    {
        Fault {
            refusal,
            transition: None,
            spot: None,
        }
    }

    // Of the move `t`, for no place.
    pub fn of_move(refusal: Refusal, t: usize) -> Self
        ensures { result ≡ fault_of refusal t }
    {
        Fault {
            refusal,
            transition: Some(t),
            spot: None,
        }
    }

    // Of the move `t`, at a place.
    pub fn at(refusal: Refusal, t: usize, spot: Spot) -> Self
        ensures { result ≡ record { refusal = refusal; transition = Some t; spot = Some spot } }
    {
        Fault {
            spot: Some(spot),
            ..Fault::of_move(refusal, t)
        }
    }

    // Accepted if the test holds, else refused with this fault.
    pub fn unless(self, holds: bool) -> Result<(), Self>
        ensures { result ≡ refuse_unless holds self }
    {
        if holds { Ok(()) } else { Err(self) }
    }
}
