// What a call on one of three lists that are given together would do. Nothing changes.
ghost use Rattle.std.specs.Prelude.{◌≡◌, not, ◌&&◌, eqb};
ghost use Rattle.free_space.specs.Runs.{is_list};
ghost use Rattle.free_space.specs.Decisions.{number_in, Gives, Keeps, Folds};
ghost use Rattle.free_lists.specs.declared.calls.Which.TheVariants.{Metadata};
ghost use Rattle.free_lists.specs.Lists.{lists_in};
ghost use Rattle.free_lists.specs.Decided.{freed_together, allocated_together};
ghost use Rattle.free_lists.specs.Walks.{Turned, Due};

use crate::FileLists;
use crate::calls::Which;
use crate::share::{Ordered, share_any};
use error::Refusal;
use free_space::check::is_list;
use free_space::decide::Decision;

// Three lists, the one that a call is on first. `lists` holds their records in the same order.
#[derive(Clone, Copy)]
struct Three<'a> {
    own: &'a [u64],
    second: &'a [u64],
    third: &'a [u64],
    lists: FileLists,
}

impl<'a> Three<'a> {
    // The three lists of a file, the given one first.
    fn turned(
        metadata: &'a [u64],
        raw: &'a [u64],
        unclassified: &'a [u64],
        lists: FileLists,
        which: Which,
    ) -> Self
        ensures { Turned which (lists_in metadata.now raw.now unclassified.now lists)
            (lists_in result.own.now result.second.now result.third.now result.lists) }
    {
        let FileLists {
            metadata: m,
            raw: r,
            unclassified: u,
        } = lists;
        match which {
            Which::Metadata => Three {
                own: metadata,
                second: raw,
                third: unclassified,
                lists,
            },
            Which::Raw => Three {
                own: raw,
                second: metadata,
                third: unclassified,
                lists: FileLists {
                    metadata: r,
                    raw: m,
                    unclassified: u,
                },
            },
            Which::Unclassified => Three {
                own: unclassified,
                second: metadata,
                third: raw,
                lists: FileLists {
                    metadata: u,
                    raw: m,
                    unclassified: r,
                },
            },
        }
    }

    // Whether all three are lists. The decision on the first has tested that one: it is refusal 3 where it is none.
    fn all_lists(self, d: Decision) -> bool
        ensures { result ≡ (not (eqb (number_in d) 3)
            && (is_list self.entry.second.now self.entry.lists.raw && is_list self.entry.third.now self.entry.lists.unclassified)) }
    {
        !matches!(d, Err(Refusal::NotAList))
            && is_list(self.second, self.lists.raw)
            && is_list(self.third, self.lists.unclassified)
    }

    // The refusal, 3, 4 or 5, that is due to them and a range. `d` is a decision on the first list.
    fn check(self, d: Decision, addr: u64, len: u64) -> Result<(), Refusal>
        requires { not (eqb (number_in d) 3) ≡ is_list self.own.now self.lists.metadata }
        ensures { Due (lists_in self.entry.own.now self.entry.second.now self.entry.third.now self.entry.lists) addr len result }
    {
        if !self.all_lists(d) {
            return Err(Refusal::NotAList);
        }
        if u64::MAX - len < addr {
            return Err(Refusal::Overflow);
        }
        let r = Ordered {
            run: self.second,
            count: self.lists.raw.count,
        };
        let u = Ordered {
            run: self.third,
            count: self.lists.unclassified.count,
        };
        if r.holds_any(addr, len)
            || u.holds_any(addr, len)
            || share_any(self.own, self.second, self.third, self.lists)
        {
            return Err(Refusal::SharedAddress);
        }
        Ok(())
    }

    // `free` on the first list.
    fn free(self, addr: u64, len: u64) -> Decision
        ensures decided { Keeps self.entry.own.now self.entry.lists.metadata
            (freed_together (lists_in self.entry.own.now self.entry.second.now self.entry.third.now self.entry.lists) Metadata addr len) result }
        ensures folds { Folds addr len result }
    {
        let d = free_space::decide::decide_free(self.own, self.lists.metadata, addr, len);
        self.check(d, addr, len)?;
        d
    }

    // `alloc` on the first list. The range is empty, so that no list holds a byte of it.
    fn alloc(self, len: u64) -> Decision
        ensures { Gives self.entry.own.now self.entry.lists.metadata
            (allocated_together (lists_in self.entry.own.now self.entry.second.now self.entry.third.now self.entry.lists) Metadata len) result }
    {
        let d = free_space::decide::decide_alloc(self.own, self.lists.metadata, len);
        self.check(d, 0, 0)?;
        d
    }
}

// What `free` on one of three lists would do.
pub fn decide_free(
    metadata: &[u64],
    raw: &[u64],
    unclassified: &[u64],
    lists: FileLists,
    which: Which,
    addr: u64,
    len: u64,
) -> Decision
    ensures decided { Keeps (lists_in metadata.now raw.now unclassified.now lists which).run
        (lists_in metadata.now raw.now unclassified.now lists which).list
        (freed_together (lists_in metadata.now raw.now unclassified.now lists) which addr len) result }
    ensures folds { Folds addr len result }
{
    Three::turned(metadata, raw, unclassified, lists, which).free(addr, len)
}

// What `alloc` on one of three lists would do.
pub fn decide_alloc(
    metadata: &[u64],
    raw: &[u64],
    unclassified: &[u64],
    lists: FileLists,
    which: Which,
    len: u64,
) -> Decision
    ensures { Gives (lists_in metadata.now raw.now unclassified.now lists which).run
        (lists_in metadata.now raw.now unclassified.now lists which).list
        (allocated_together (lists_in metadata.now raw.now unclassified.now lists) which len) result }
{
    Three::turned(metadata, raw, unclassified, lists, which).alloc(len)
}
