// The tasks in order of entry, and their numbers in the order of their names: by halving a name is
// found among them, and the order says how many names come before each. An index and no map, since
// the library's maps are on the heap.
ghost use Rattle.sheet.specs.Spelling.{entries_of, Indexes, Timed};

use crate::task::Task;
use arrayvec::ArrayVec;
use refusal::SheetFault;
use std::cmp::Ordering;

const MOST_TASKS: usize = 512;

#[derive(Drop)]
pub struct Tasks {
    tasks: ArrayVec<Task, MOST_TASKS>,
    by_name: ArrayVec<u16, MOST_TASKS>,
    ghost timed: { Timed (entries_of tasks.items) },
    ghost indexed: { Indexes (entries_of tasks.items) by_name.items },
}

impl Tasks {
    ghost use Rattle.std.specs.Prelude.{◌≡◌, ℕ, ◌<◌, ◌≤◌, List, [], ◌∷◌, ◌++◌, length, IfOk, Some};
    ghost use Rattle.std.specs.Option.{option_map};
    ghost use Rattle.refusal.specs.Answers.{answered};
    ghost use Rattle.field.specs.Numbers.{longest_time};
    ghost use Rattle.sheet.specs.Book.{room_for, named_at};
    ghost use Rattle.sheet.specs.Entries.{entry, task, number_of, numbered, retimed, Others};
    ghost use Rattle.sheet.specs.Tables.{entries, Gap, Found};

    pub fn new() -> Tasks
        ensures { entries result ≡ [] }
    {
        Tasks {
            tasks: ArrayVec::new(),
            by_name: ArrayVec::new(),
        }
    }

    pub fn len(&self) -> usize
        ensures { result ≡ length (entries self.now) }
    {
        self.tasks.len()
    }

    // The number of the task of this name, or where its name would stand. By hand: the library's search
    // goes on past an equal name, and takes up to twice the time.
    pub fn find(&self, name: &[u8]) -> Result<usize, usize>
        ensures { Found self.now name.now result }
    {
        let mut low = 0;
        let mut high = self.by_name.len();
        while low < high {
            let middle = low + (high - low) / 2;
            let number = self.by_name[middle];
            match self.tasks[number as usize].name.as_slice().cmp(&name) {
                Ordering::Less => low = middle + 1,
                Ordering::Equal => return Ok(number as usize),
                Ordering::Greater => high = middle,
            }
        }
        Err(low)
    }

    pub fn name(&self, number: usize) -> Option<&[u8]>
        ensures { option_map (λ x. x.now) result ≡ option_map (λ t. t.name) (numbered (entries self.now) number) }
    {
        self.tasks.get(number).map(|task| task.name.as_slice())
    }

    pub fn time(&self, number: usize) -> Option<u64>
        ensures { result ≡ option_map (λ t. t.time) (numbered (entries self.now) number) }
    {
        self.tasks.get(number).map(|task| task.time)
    }

    // Where a new task's name would stand.
    pub fn room_for(&self, name: &[u8]) -> Result<usize, SheetFault>
        ensures answer { answered result ≡ room_for (entries self.now) name.now }
        ensures place { IfOk result (λ i. (length (entries self.now) < 512) × Gap self.now name.now i) }
    {
        match self.find(name) {
            Ok(_) => Err(SheetFault::Known),
            Err(_) if self.tasks.is_full() => Err(SheetFault::NoRoom),
            Err(place) => Ok(place),
        }
    }

    // The number of the task whose name stands in a field.
    pub fn number(&self, name: &[u8], field: u8) -> Result<usize, SheetFault>
        ensures value { result ≡ named_at field (entries self.now) name.now }
        ensures within { IfOk result (λ u. u < length (entries self.now)) }
    {
        self.find(name).map_err(|_| SheetFault::Unknown(field))
    }

    // One task more, its name put where it would stand.
    pub fn add(&mut self, place: usize, name: &[u8], time: u64)
        requires short { length name.now ≤ 24 }
        requires room { length (entries self.old) < 512 }
        requires timed { (1 ≤ time) × (time ≤ longest_time) }
        requires gap { Gap self.old name.now place }
        ensures { entries self.new ≡ entries self.old ++ (entry name.now time ∷ []) }
    {
        let number = self.tasks.len() as u16;
        self.tasks.push(Task::new(name, time));
        self.by_name.insert(place, number);
    }

    #[tactic(auto, using(crate::proofs::Changing::retiming))]
    pub fn set_time(&mut self, number: usize, time: u64)
        requires within { number < length (entries self.old) }
        requires timed { (1 ≤ time) × (time ≤ longest_time) }
        ensures tasks { entries self.new ≡ retimed (entries self.old) number time }
        ensures others { (n : List ℕ) → number_of (entries self.old) n ≡ Some number → Others (entries self.old) (entries self.new) n }
    {
        self.tasks[number].time = time;
    }
}
