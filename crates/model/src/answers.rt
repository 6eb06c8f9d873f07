// What the register decides on a request. A request answers with a pair of this and the account whose grant decides.
#[derive(Clone, Copy, Debug, PartialEq, Eq)]
pub enum Decision {
    Permitted,
    Denied,
    Undecided,
}
