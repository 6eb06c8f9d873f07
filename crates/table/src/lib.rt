// A keyed table over a slice that the host lends: it finds a record by its key, adds one at the end,
// replaces one in its place, and closes the gaps of removed ones with the order kept.
//
// Contracts speak of the list of records in use and of all cells: those beyond what a call names keep
// what they held. Whatever looks for a key or removes costs one pass over the records in use, the rest
// a step.
#![tactic(auto)]

ghost use Rattle.std.specs.Prelude.{◌≡◌, ◌+◌, ◌<◌, ◌≤◌, Bool, not, [], ◌∷◌, ◌++◌, length, take, drop, is_some, IfSome, is_ok, cond, if◌then◌else◌, Ok, Err, filter, position, slice_set};
ghost use Rattle.std.specs.Fn.{CalledAt};
ghost use Rattle.std.specs.List.Retain.{IsFiltered};

// A record that goes by a key. It says itself whether a key is its own, so that a key need not be `Eq`.
pub trait Record: Copy {
    type Key: Copy;

    ghost has: { Self → Self.Key → Bool };

    fn has_key(&self, key: Self::Key) -> bool
        ensures { result ≡ has self.now key };
}

// A rule that tells which records stay in a table. With a closure in its place `retain` would have a `requires`.
pub trait Retain<R> {
    ghost stays: { Self → R → Bool };

    fn keeps(&self, item: &R) -> bool
        ensures { result ≡ stays self.now item.now };
}

// Why a table refuses, with the key that is absent or present.
#[derive(Clone, Copy, Debug, PartialEq, Eq)]
pub enum TableFault<K> {
    Absent(K),
    Present(K),
    Full,
}

#[derive(Drop)]
pub struct Table<'a, R> {
    cells: &'a mut [R],
    len: usize,
    ghost within: { len ≤ length cells.now },
}

impl<'a, R: Record> Table<'a, R> {
    ghost use Rattle.table.specs.Used.{cells, room, used, roomy, first, replaced};

    // A table with no records, whatever the cells held.
    pub fn new(lent: &'a mut [R]) -> Self
        ensures used { used result ≡ [] }
        ensures cells { cells result ≡ lent.old }
    {
        Table {
            cells: lent,
            len: 0,
        }
    }

    pub fn used(&self) -> &[R]
        ensures { result.now ≡ used self.now }
    {
        &self.cells[..self.len]
    }

    pub fn room(&self) -> usize
        ensures { result ≡ room self.now }
    {
        self.cells.len()
    }

    // The first record with that key.
    pub fn find(&self, key: R::Key) -> Option<R>
        ensures { result ≡ first (λ x. R.has x key) (used self.now) }
    {
        self.used().iter().copied().find(|r| r.has_key(key))
    }

    pub fn refuse_present(&self, key: R::Key) -> Result<(), TableFault<R::Key>>
        ensures { result ≡ (if is_some (first (λ x. R.has x key) (used self.now)) then Err (TableFault.Present key) else Ok tt) }
    {
        if self.find(key).is_some() {
            return Err(TableFault::Present(key));
        }
        Ok(())
    }

    pub fn refuse_full(&self) -> Result<(), TableFault<R::Key>>
        ensures { result ≡ (if roomy self.now then Ok tt else Err TableFault.Full) }
    {
        if self.len == self.cells.len() {
            return Err(TableFault::Full);
        }
        Ok(())
    }

    // One record more, at the end. It does not look for the key: `refuse_present` does.
    pub fn add(&mut self, item: R) -> Result<(), TableFault<R::Key>>
        ensures value { result ≡ (if roomy self.old then Ok tt else Err TableFault.Full) }
        ensures used { used self.new ≡ cond (is_ok result) (used self.old ++ item ∷ []) (used self.old) }
        ensures cells { cells self.new ≡ (if is_ok result then slice_set (cells self.old) (length (used self.old)) item else cells self.old) }
        ensures room { room self.new ≡ room self.old }
    {
        self.refuse_full()?;
        self.cells[self.len] = item;
        self.len += 1;
        Ok(())
    }

    // Another record in the place of the first with that key.
    pub fn replace(&mut self, key: R::Key, item: R) -> Result<(), TableFault<R::Key>>
        ensures value { result ≡ (if is_some (first (λ x. R.has x key) (used self.old)) then Ok tt else Err (TableFault.Absent key)) }
        ensures used { used self.new ≡ replaced (λ x. R.has x key) item (used self.old) }
        ensures cells { cells self.new ≡ used self.new ++ drop (length (used self.old)) (cells self.old) }
        ensures room { room self.new ≡ room self.old }
    {
        let Some(at) = self.position(key) else {
            return Err(TableFault::Absent(key));
        };
        self.cells[at] = item;
        Ok(())
    }

    // The place of the first record with that key.
    fn position(&self, key: R::Key) -> Option<usize>
        ensures { result ≡ position (λ x. R.has x key) (used self.now) }
    {
        self.used().iter().position(|r| r.has_key(key))
    }

    // Only the records that the rule keeps, in their order; tells how many went.
    pub fn retain<K: Retain<R>>(&mut self, rule: &K) -> usize
        ensures value { result + length (used self.new) ≡ length (used self.old) }
        ensures used { used self.new ≡ filter (K.stays rule.now) (used self.old) }
        ensures cells { cells self.new ≡ used self.new ++ drop (length (used self.new)) (cells self.old) }
        ensures room { room self.new ≡ room self.old }
    {
        self.keep(|item| rule.keeps(item))
    }

    // No record with that key any more; refuses where there is none.
    pub fn remove(&mut self, key: R::Key) -> Result<(), TableFault<R::Key>>
        ensures value { result ≡ (if is_some (first (λ x. R.has x key) (used self.old)) then Ok tt else Err (TableFault.Absent key)) }
        ensures used { used self.new ≡ filter (λ x. not (R.has x key)) (used self.old) }
        ensures cells { cells self.new ≡ used self.new ++ drop (length (used self.new)) (cells self.old) }
        ensures room { room self.new ≡ room self.old }
    {
        if self.keep(|r| !r.has_key(key)) == 0 {
            return Err(TableFault::Absent(key));
        }
        Ok(())
    }

    // Only the records at which `stays` answers `true`, in their order; tells how many went.
    fn keep<F: FnMut(&R) -> bool>(&mut self, stays: F) -> usize
        requires { F.IsAlwaysCallable stays }
        ensures value { result + length (used self.new) ≡ length (used self.old) }
        ensures used { IsFiltered (CalledAt F.FnMut) stays (used self.old) (used self.new) }
        ensures cells { cells self.new ≡ used self.new ++ drop (length (used self.new)) (cells self.old) }
        ensures room { room self.new ≡ room self.old }
    {
        let len = self.len;
        self.len = compact(&mut self.cells[..len], stays);
        len - self.len
    }
}

// Moves the records at which `keep` answers `true` to the front, in their order, and tells how many they are.
fn compact<R: Copy, F: FnMut(&R) -> bool>(cells: &mut [R], mut keep: F) -> usize
    requires { F.IsAlwaysCallable keep }
    ensures kept { IsFiltered (CalledAt F.FnMut) keep cells.old (take result cells.new) }
    ensures rest { drop result cells.new ≡ drop result cells.old }
    ensures bound { result ≤ length cells.old }
{
    let mut stay = 0;
    // By index, since it writes to the slice that it reads.
    for i in 0..cells.len() {
        let item = cells[i];
        if keep(&item) {
            cells[stay] = item;
            stay += 1;
        }
    }
    stay
}
