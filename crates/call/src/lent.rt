// What a call is lent, as its steps pass it on.

// What is parsed: the setting (0: the old one, any other: the strict one), input bytes, token rows.
#[derive(Clone, Copy)]
pub struct Input<'a> {
    pub setting: u32,
    pub bytes: &'a [u8],
    pub tokens: &'a [u32],
}

// What is written: events (work only), tree rows, lexical errors, reports, expectations.
#[derive(Drop)]
pub struct Buffers<'a> {
    pub events: &'a mut [u32],
    pub trees: &'a mut [u32],
    pub errors: &'a mut [u32],
    pub reports: &'a mut [u32],
    pub pool: &'a mut [u32],
}
