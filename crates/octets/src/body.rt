// A body is a slice; this type only has its limits (01, Octets on the wire).
#[derive(Clone, Copy)]
pub struct Body {}

impl Body {
    pub const MIN_OCTETS: usize = 2;

    pub const MAX_OCTETS: usize = 1300;
}
