// A task in memory.
ghost use Rattle.std.specs.Prelude.{◌≡◌, ◌≤◌, length};
ghost use Rattle.sheet.specs.Entries.{entry};
ghost use Rattle.sheet.specs.Spelling.{entry_of};

use arrayvec::ArrayVec;

// As many bytes as the longest name has.
const NAME_BYTES: usize = 24;

#[derive(Default, Drop)]
pub struct Task {
    pub name: ArrayVec<u8, NAME_BYTES>,
    pub time: u64,
}

impl Task {
    pub fn new(name: &[u8], time: u64) -> Task
        requires { length name.now ≤ 24 }
        ensures { entry_of result ≡ entry name.now time }
    {
        Task {
            name: ArrayVec::try_from(name).unwrap(),
            time,
        }
    }
}
