//! Lists of numbers that are linked through one array.
ghost use Rattle.std.specs.Prelude.{◌≡◌, ◌<◌, length, [], vec_capacity};
ghost use Rattle.std.specs.Prelude.{IfSome, IfNone};
ghost use Rattle.ps_sat.specs.Links.{AreLinked, IsFree, PopsFirst, PushesOne, ShiftsList};
ghost use Rattle.ps_sat.specs.Links.{AddsNumber, list_at};
ghost use Rattle.ps_sat.specs.declared.links.TheConstants.{END};

/// Behind the last number of a list.
pub(crate) const END: u32 = u32::MAX;

/// Lists of different numbers, each of which stands in one list at most. Behind each number stands
/// the next one of its list.
#[derive(Drop)]
pub(crate) struct Links {
    pub next: Vec<u32>,
    pub heads: Vec<u32>,
}

impl Links {
    /// Takes the first number out of a list.
    pub fn pop(&mut self, slot: usize) -> Option<u32>
        requires linked { AreLinked self.old.next.items self.old.heads.items }
        requires within { slot < length self.old.heads.items }
        ensures some { IfSome result (PopsFirst self.old self.new slot) }
        ensures none { IfNone result (list_at self.old.next.items self.old.heads.items slot ≡ []) }
        ensures same { IfNone result (self.new ≡ self.old) }
        ensures room { vec_capacity self.new.next ≡ vec_capacity self.old.next }
    {
        let head = self.heads[slot];
        if head == END {
            return None;
        }
        self.heads[slot] = self.next[head as usize];
        Some(head)
    }

    /// Puts a number that stands in no list at the front of one.
    pub fn push(&mut self, slot: usize, node: u32)
        requires linked { AreLinked self.old.next.items self.old.heads.items }
        requires within { slot < length self.old.heads.items }
        requires node { node < length self.old.next.items }
        requires free { IsFree self.old.next.items self.old.heads.items node }
        ensures pushed { PushesOne self.old self.new slot node }
        ensures room { vec_capacity self.new.next ≡ vec_capacity self.old.next }
    {
        self.next[node as usize] = self.heads[slot];
        self.heads[slot] = node;
    }

    /// Makes one list another one, which is empty.
    pub fn shift(&mut self, from: usize, to: usize)
        requires linked { AreLinked self.old.next.items self.old.heads.items }
        requires from { from < length self.old.heads.items }
        requires to { to < length self.old.heads.items }
        requires empty { list_at self.old.next.items self.old.heads.items to ≡ [] }
        ensures shifted { ShiftsList self.old self.new from to }
        ensures room { vec_capacity self.new.next ≡ vec_capacity self.old.next }
    {
        self.heads[to] = self.heads[from];
        self.heads[from] = END;
    }

    /// One number more, which stands in no list. There is room for it.
    pub fn add(&mut self)
        requires linked { AreLinked self.old.next.items self.old.heads.items }
        requires few { length self.old.next.items < END }
        requires room { length self.old.next.items < vec_capacity self.old.next }
        ensures added { AddsNumber self.old self.new }
        ensures room { vec_capacity self.new.next ≡ vec_capacity self.old.next }
    {
        self.next.push_reserved(END);
    }
}
