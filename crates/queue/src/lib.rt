// The queue: an indexed binary heap of cells, by (k1, k2, column, row), in tables that the caller lends.
// `list` holds the heap and `place` says where in it each cell is, so a call takes time by the logarithm of the count and passes over no table.
// The tables may stand in slow memory: a cell that moves is carried in hand, each entry that it passes is written once, and it itself once, where it stops.
#![tactic(auto)]

ghost use Rattle.std.specs.Prelude.{◌≡◌, true, false, ◌+◌, ◌<◌, ◌≤◌, length, get_or, set};
ghost use Rattle.decide.specs.Decides.{Decides};
ghost use Rattle.decide.specs.Order.{less_or, column_first};
ghost use Rattle.queue.specs.Order.{before};
ghost use Rattle.queue.specs.Queue.{absent, Ordered, LeastOf};
ghost use Rattle.queue.specs.Lent.{SameTables, HeapIn, ChangedIn, EntryKeptIn};
ghost use Rattle.queue.specs.Rules.{Above, EntryRule, AbsentRule, QueuedRule, Lengths};
ghost use Rattle.queue.specs.Sift.{Risen, Stands, EntryOf, Compares, Lesser, HeldIn, LooseIn, LowIn, KeysStay, SiftedIn};

// The place of a cell that is not queued, and the content of an unused place of the list.
pub const ABSENT: u16 = 65535;

// Does cell a come before cell b where their keys are equal? The smaller column, then the smaller row.
#[tactic(auto, unfolding(decide::specs::Order::less_or, decide::specs::Order::column_first))]
fn tie_before(width: usize, a: usize, b: usize) -> bool
    requires { 0 < width }
    ensures { result ≡ column_first width a b }
{
    (a % width, a) < (b % width, b)
}

// An entry in hand: a cell, and its key as one number, k1 in its upper half. Keys are ordered as these numbers are, and one test compares two.
#[derive(Clone, Copy)]
struct Entry {
    cell: usize,
    key: u64,
}

impl Entry {
    // The entry of a cell.
    fn of(k1: &[u32], k2: &[u32], cell: usize) -> Entry
        requires { (cell < length k1.now) × (length k2.now ≡ length k1.now) }
        ensures { EntryOf k1.now k2.now cell result }
    {
        let key = u64::from(k1[cell]) << 32 | u64::from(k2[cell]);
        Entry { cell, key }
    }

    // Does it come before the other? Only where their keys are equal are the columns found, by two divisions.
    #[tactic(auto, unfolding(decide::specs::Order::less_or))]
    fn comes_before(self, other: Entry, width: usize) -> bool
        requires { 0 < width }
        ensures { result ≡ less_or self.key other.key (column_first width self.cell other.cell) }
    {
        self.key < other.key || self.key == other.key && tie_before(width, self.cell, other.cell)
    }
}

// Writes a cell at place i of the list, and that place at the cell.
fn stand(place: &mut [u16], list: &mut [u16], i: usize, cell: usize)
    requires { Stands i cell place.old list.old }
    ensures place_after { place.new ≡ set place.old cell i }
    ensures list_after { list.new ≡ set list.old i cell }
{
    list[i] = cell as u16;
    place[cell] = i as u16;
}

// The place of the lesser entry right under place i, which has one there.
fn lesser_under(width: usize, k1: &[u32], k2: &[u32], list: &[u16], count: usize, i: usize) -> usize
    requires compares { Compares width count i k1.now k2.now list.now }
    requires i_bound { i + i + 1 < count }
    ensures { Lesser (before width k1.now k2.now) count i result list.now }
{
    let left = i + i + 1;
    let right = left + 1;
    if right < count {
        let a = Entry::of(k1, k2, usize::from(list[right]));
        let b = Entry::of(k1, k2, usize::from(list[left]));
        if a.comes_before(b, width) {
            return right;
        }
    }
    left
}

// The queue in tables that the caller lends: each cell's two key numbers and its place, and the list, whose first `count` places are used.
#[derive(Drop)]
pub struct Queue<'a> {
    pub width: usize,
    pub k1: &'a mut [u32],
    pub k2: &'a mut [u32],
    pub place: &'a mut [u16],
    pub list: &'a mut [u16],
    pub count: usize,
}

impl<'a> Queue<'a> {
    // With a cell in hand and place `start` of the list empty, the empty place goes up as long as the cell comes before the entry above it.
    // Each entry passed is written once. Returns the place where the cell belongs, or from where it belongs lower. This and the two below stand in the calls' own code: as calls they make a first search 14 % longer.
    #[inline(always)]
    fn sift_up(&mut self, start: usize, cell: usize) -> usize
        requires held { HeldIn self.old cell start }
        requires loose { LooseIn self.old cell start }
        ensures same_tables { SameTables self.old self.new }
        ensures keys_stay { KeysStay self.old self.new }
        ensures sifted { SiftedIn self.old self.new cell start result (λ lt l. Risen lt self.old.count start result l) }
    {
        // Read once: the loop keeps the tables in registers.
        let width = self.width;
        let k1 = &mut *self.k1;
        let k2 = &mut *self.k2;
        let place = &mut *self.place;
        let list = &mut *self.list;
        let own = Entry::of(k1, k2, cell);
        let mut i = start;
        while 0 < i {
            let above = (i - 1) / 2;
            let upper = Entry::of(k1, k2, usize::from(list[above]));
            if !own.comes_before(upper, width) {
                return i;
            }
            stand(place, list, i, upper.cell);
            i = above;
        }
        i
    }

    // The empty place goes down as long as an entry right under it comes before the cell in hand. Returns the place where the cell belongs.
    #[inline(always)]
    fn sift_down(&mut self, start: usize, cell: usize) -> usize
        requires held { HeldIn self.old cell start }
        requires low { LowIn self.old cell start }
        ensures same_tables { SameTables self.old self.new }
        ensures keys_stay { KeysStay self.old self.new }
        ensures sifted { SiftedIn self.old self.new cell start result (λ lt l. Ordered lt self.old.count l) }
    {
        // Read once: the loop keeps the tables in registers.
        let width = self.width;
        let count = self.count;
        let k1 = &mut *self.k1;
        let k2 = &mut *self.k2;
        let place = &mut *self.place;
        let list = &mut *self.list;
        let own = Entry::of(k1, k2, cell);
        let mut i = start;
        while i + i + 1 < count {
            let under = lesser_under(width, k1, k2, list, count, i);
            let lesser = Entry::of(k1, k2, usize::from(list[under]));
            if !lesser.comes_before(own, width) {
                return i;
            }
            stand(place, list, i, lesser.cell);
            i = under;
        }
        i
    }

    // The place where the cell in hand belongs, be it higher or lower than the empty place i. The cell is not written there yet.
    // A cell that went up comes before all that it passed, so it does not go down again.
    #[inline(always)]
    fn settle(&mut self, i: usize, cell: usize) -> usize
        requires held { HeldIn self.old cell i }
        requires loose { LooseIn self.old cell i }
        ensures same_tables { SameTables self.old self.new }
        ensures keys_stay { KeysStay self.old self.new }
        ensures sifted { SiftedIn self.old self.new cell i result (λ lt l. Ordered lt self.old.count l) }
    {
        let j = self.sift_up(i, cell);
        if j != i {
            return j;
        }
        self.sift_down(j, cell)
    }

    // Puts a cell that is not queued into the queue under the key (first, second): from the end of the list it can go up only.
    pub fn put_in(&mut self, cell: usize, first: u32, second: u32)
        requires heap { HeapIn self.old }
        requires cell_in_bounds { cell < length self.old.list.now }
        requires not_queued { get_or self.old.place.now cell 0 ≡ absent }
        ensures same_tables { SameTables self.old self.new }
        ensures width { self.new.width ≡ self.old.width }
        ensures count { self.new.count ≡ self.old.count + 1 }
        ensures changed { ChangedIn self.old self.new cell first second true }
    {
        self.k1[cell] = first;
        self.k2[cell] = second;
        let last = self.count;
        self.count = last + 1;
        let i = self.sift_up(last, cell);
        stand(&mut *self.place, &mut *self.list, i, cell);
    }

    // Puts a queued cell under another key, (first, second). Where it stays in its place, list and places stay as they are.
    pub fn put_under(&mut self, cell: usize, first: u32, second: u32)
        requires heap { HeapIn self.old }
        requires cell_in_bounds { cell < length self.old.list.now }
        requires queued { get_or self.old.place.now cell 0 ≡ absent → ⊥ }
        ensures same_tables { SameTables self.old self.new }
        ensures width { self.new.width ≡ self.old.width }
        ensures count { self.new.count ≡ self.old.count }
        ensures changed { ChangedIn self.old self.new cell first second true }
        ensures entry_kept { EntryKeptIn self.old self.new }
    {
        let i = usize::from(self.place[cell]);
        self.k1[cell] = first;
        self.k2[cell] = second;
        let j = self.settle(i, cell);
        if j != i {
            stand(&mut *self.place, &mut *self.list, j, cell);
        }
    }

    // Takes a queued cell out of the queue: the last entry of the list takes its place and is settled there.
    pub fn take_out(&mut self, cell: usize)
        requires heap { HeapIn self.old }
        requires cell_in_bounds { cell < length self.old.list.now }
        requires queued { get_or self.old.place.now cell 0 ≡ absent → ⊥ }
        ensures same_tables { SameTables self.old self.new }
        ensures width { self.new.width ≡ self.old.width }
        ensures count { self.new.count + 1 ≡ self.old.count }
        ensures changed { ChangedIn self.old self.new cell 0 0 false }
    {
        let i = usize::from(self.place[cell]);
        let last = self.count - 1;
        let moved = usize::from(self.list[last]);
        self.count = last;
        self.k1[cell] = 0;
        self.k2[cell] = 0;
        self.place[cell] = ABSENT;
        self.list[last] = ABSENT;
        if last <= i {
            return;
        }
        let j = self.settle(i, moved);
        stand(&mut *self.place, &mut *self.list, j, moved);
    }
}

// The least cell of a queue, the first of its list; 65,535 where the queue is empty.
pub fn least(list: &[u16]) -> usize
    requires { 0 < length list.now }
    ensures { LeastOf list.now result }
{
    usize::from(list[0])
}

// Does the entry above place i of the list name a cell, which cell c, the one at i, does not come before?
fn above_holds(width: usize, k1: &[u32], k2: &[u32], list: &[u16], c: usize, i: usize) -> bool
    requires width_nonzero { 0 < width }
    requires lengths { (length k1.now ≡ length list.now) × (length k2.now ≡ length list.now) }
    requires cell { (c ≡ get_or list.now i 0) × (c < length list.now) }
    requires i_in_bounds { (0 < i) × (i < length list.now) }
    ensures { Decides result (Above width (length list.now) k1.now k2.now list.now i) }
{
    let d = usize::from(list[(i - 1) / 2]);
    d < list.len() && !Entry::of(k1, k2, c).comes_before(Entry::of(k1, k2, d), width)
}

// Does place i of the list obey the rules of a true heap?
pub fn entry_holds(
    width: usize,
    k1: &[u32],
    k2: &[u32],
    place: &[u16],
    list: &[u16],
    count: usize,
    i: usize,
) -> bool
    requires width_nonzero { 0 < width }
    requires lengths { Lengths (length list.now) k1.now k2.now place.now list.now }
    requires i_in_bounds { i < length list.now }
    ensures { Decides result (EntryRule width (length list.now) count k1.now k2.now place.now list.now i) }
{
    let c = usize::from(list[i]);
    if count <= i {
        return list[i] == ABSENT;
    }
    c < list.len()
        && usize::from(place[c]) == i
        && (i == 0 || above_holds(width, k1, k2, list, c, i))
}

// Is cell c absent from the queue, and are both its key numbers 0?
pub fn absent_holds(k1: &[u32], k2: &[u32], place: &[u16], c: usize) -> bool
    requires { (c < length k1.now) × (c < length k2.now) × (c < length place.now) }
    ensures { Decides result (AbsentRule k1.now k2.now place.now c) }
{
    place[c] == ABSENT && k1[c] == 0 && k2[c] == 0
}

// Has cell c a used place of the list, and is it named there?
pub fn queued_holds(place: &[u16], list: &[u16], count: usize, c: usize) -> bool
    requires { (c < length place.now) × (count ≤ length list.now) }
    ensures { Decides result (QueuedRule count place.now list.now c) }
{
    let i = usize::from(place[c]);
    i < count && usize::from(list[i]) == c
}
