/// The largest index of a level: 2^45. It holds every element number of an array whose sides are within their limit, and
/// keeps solving a subscript for a variable within 64 bits.
pub const MOST_INDEX: u64 = 35_184_372_088_832;
