// Many numbers as one, so that an outcome can hold them.

// A number with one more mixed in. Where only one of the numbers that are mixed is another, the mix is another.
pub fn mixed(n: u64, next: u64) -> u64 {
    n.rotate_left(1) ^ next
}
