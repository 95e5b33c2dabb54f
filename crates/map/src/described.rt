// What every line of the map is made of.
#[derive(Clone, Copy)]
pub struct Described<'a> {
    pub text: &'a [u8],
    pub parameters: &'a [u32],
    pub registers: &'a [u32],
    pub variables: &'a [u32],
}
