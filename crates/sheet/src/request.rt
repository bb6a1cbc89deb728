// A call upon a sheet, as a value.

#[derive(Clone, Copy)]
pub enum Request<'a> {
    Enter { name: &'a [u8], time: u64 },
    Need { task: &'a [u8], need: &'a [u8] },
    Drop { task: &'a [u8], need: &'a [u8] },
    Retime { name: &'a [u8], time: u64 },
}
