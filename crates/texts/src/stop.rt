// What stops a reader: the text is refused, or there is no memory for what it says.
use formats::fault::TextFault;

// Kept: in place of an `Option<TextFault>`, since `?` on a push asks for a `From<AllocFailed<T>>`, which only the library can give
// to an `Option`.
#[derive(Clone, Copy)]
pub enum ReadError {
    Refused(TextFault),
    NoMemory,
}
