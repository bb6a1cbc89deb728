// A sheet: its tasks, and a store for their needs. Each call does to the sheet's book what the rules
// of the book say, over every store.
ghost use Rattle.std.specs.Prelude.{◌≡◌, ℕ, length, OnErr, Result};
ghost use Rattle.std.specs.Option.{option_map};
ghost use Rattle.refusal.specs.Answers.{then};
ghost use Rattle.refusal.specs.declared.SheetFault.{SheetFault};
ghost use Rattle.sheet.specs.Book.{Book, empty_book, both_named, answer, after, enter_task, enter_need, drop_need, retime_task};
ghost use Rattle.sheet.specs.Entries.{number_of, numbered, Others};
ghost use Rattle.sheet.specs.Lives.{lived, booked};
ghost use Rattle.sheet.specs.Requests.{asked, life_of};
ghost use Rattle.sheet.specs.Sheets.{book_of};
ghost use Rattle.sheet.specs.Tables.{entries};

use crate::request::Request;
use crate::tasks::Tasks;
use field::{Field, check_time};
use needs::NeedStore;
use refusal::SheetFault;

// Tried: no `impl Model` with the book as its value, since the logic has no code of a function, which
// a book's needs are.
#[derive(Drop)]
pub struct Sheet<S> {
    tasks: Tasks,
    store: S,
}

impl<S: NeedStore> Sheet<S> {
    // A sheet without tasks, over a store that is emptied.
    pub fn open(mut store: S) -> Sheet<S>
        ensures { book_of S.has S.places result ≡ empty_book (S.places store) }
    {
        store.clear();
        Sheet {
            tasks: Tasks::new(),
            store,
        }
    }

    // Enters a task under the next number.
    pub fn enter(&mut self, name: &[u8], time: u64) -> Result<(), SheetFault>
        ensures answer { result ≡ answer (book_of S.has S.places self.old) (enter_task name.now time) }
        ensures book { book_of S.has S.places self.new ≡ after (book_of S.has S.places self.old) (enter_task name.now time) }
        ensures kept { OnErr result (book_of S.has S.places self.new ≡ book_of S.has S.places self.old) }
    {
        let name = Field::new(2, name).name()?;
        let time = check_time(time, 3)?;
        let place = self.tasks.room_for(name)?;
        self.tasks.add(place, name, time);
        Ok(())
    }

    // The numbers of a task and of one that it needs, by their names.
    fn pair(&self, task: &[u8], need: &[u8]) -> Result<(usize, usize), SheetFault>
        ensures { (k : ℕ → ℕ → Result Book SheetFault) → both_named (entries self.now.tasks) task.now need.now k ≡ then result (λ p. k p.0 p.1) }
    {
        let task = Field::new(2, task).name()?;
        let need = Field::new(3, need).name()?;
        let a = self.tasks.number(task, 2)?;
        let b = self.tasks.number(need, 3)?;
        Ok((a, b))
    }

    // The first task needs the second. Two names and no pair: every caller has them apart.
    pub fn need(&mut self, task: &[u8], need: &[u8]) -> Result<(), SheetFault>
        ensures answer { result ≡ answer (book_of S.has S.places self.old) (enter_need task.now need.now) }
        ensures book { book_of S.has S.places self.new ≡ after (book_of S.has S.places self.old) (enter_need task.now need.now) }
        ensures kept { OnErr result (book_of S.has S.places self.new ≡ book_of S.has S.places self.old) }
    {
        let (a, b) = self.pair(task, need)?;
        if a == b {
            return Err(SheetFault::SameTask);
        }
        self.store.insert(a, b)?;
        Ok(())
    }

    // The first task no longer needs the second.
    pub fn drop_need(&mut self, task: &[u8], need: &[u8]) -> Result<(), SheetFault>
        ensures answer { result ≡ answer (book_of S.has S.places self.old) (drop_need task.now need.now) }
        ensures book { book_of S.has S.places self.new ≡ after (book_of S.has S.places self.old) (drop_need task.now need.now) }
        ensures kept { OnErr result (book_of S.has S.places self.new ≡ book_of S.has S.places self.old) }
    {
        let (a, b) = self.pair(task, need)?;
        self.store.remove(a, b)?;
        Ok(())
    }

    // Gives the named task another time, and leaves every other as it is.
    pub fn retime(&mut self, name: &[u8], time: u64) -> Result<(), SheetFault>
        ensures answer { result ≡ answer (book_of S.has S.places self.old) (retime_task name.now time) }
        ensures book { book_of S.has S.places self.new ≡ after (book_of S.has S.places self.old) (retime_task name.now time) }
        ensures kept { OnErr result (book_of S.has S.places self.new ≡ book_of S.has S.places self.old) }
        ensures others { Others (book_of S.has S.places self.old).tasks (book_of S.has S.places self.new).tasks name.now }
    {
        // As in `enter`: one function for the two checks would have a contract longer than they are.
        let name = Field::new(2, name).name()?;
        let time = check_time(time, 3)?;
        let number = self.tasks.number(name, 2)?;
        self.tasks.set_time(number, time);
        Ok(())
    }

    // One call, as a request asks for it.
    pub fn carry_out(&mut self, request: Request<'_>) -> Result<(), SheetFault>
        ensures answer { result ≡ answer (book_of S.has S.places self.old) (asked request.entry) }
        ensures book { book_of S.has S.places self.new ≡ after (book_of S.has S.places self.old) (asked request.entry) }
        ensures kept { OnErr result (book_of S.has S.places self.new ≡ book_of S.has S.places self.old) }
    {
        // A match and no table of calls, since each request has arguments of its own.
        match request {
            Request::Enter { name, time } => self.enter(name, time),
            Request::Need { task, need } => self.need(task, need),
            Request::Drop { task, need } => self.drop_need(task, need),
            Request::Retime { name, time } => self.retime(name, time),
        }
    }

    // One call after another, granted or refused.
    fn carry_out_all(&mut self, requests: &[Request<'_>])
        ensures { book_of S.has S.places self.new ≡ lived (book_of S.has S.places self.old) (life_of requests.now) }
    {
        for request in requests {
            let _ = self.carry_out(*request);
        }
    }

    // A whole life: a sheet opened over a store, and one call after another.
    pub fn live(store: S, requests: &[Request<'_>]) -> Sheet<S>
        ensures { book_of S.has S.places result ≡ booked (S.places store) (life_of requests.now) }
    {
        let mut sheet = Sheet::open(store);
        sheet.carry_out_all(requests);
        sheet
    }

    // How many tasks are entered.
    pub fn len(&self) -> usize
        ensures { result ≡ length (book_of S.has S.places self.now).tasks }
    {
        self.tasks.len()
    }

    // The number of the task of this name.
    pub fn number(&self, name: &[u8]) -> Option<usize>
        ensures { result ≡ number_of (book_of S.has S.places self.now).tasks name.now }
    {
        self.tasks.find(name).ok()
    }

    // The name of a task.
    pub fn name(&self, number: usize) -> Option<&[u8]>
        ensures { option_map (λ x. x.now) result ≡ option_map (λ t. t.name) (numbered (book_of S.has S.places self.now).tasks number) }
    {
        self.tasks.name(number)
    }

    // The time of a task.
    pub fn time(&self, number: usize) -> Option<u64>
        ensures { result ≡ option_map (λ t. t.time) (numbered (book_of S.has S.places self.now).tasks number) }
    {
        self.tasks.time(number)
    }

    // The store, to ask it for needs and followers.
    pub fn store(&self) -> &S
        ensures { (S.has result.now ≡ (book_of S.has S.places self.now).needs) × (S.places result.now ≡ (book_of S.has S.places self.now).places) }
    {
        &self.store
    }
}
