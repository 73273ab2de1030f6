//! The links to the next and the previous item. Each list is a ring, which its sentinel closes: the sentinel stands
//! before the first item and after the last, so that neither an empty list nor its ends need a case of their own.

ghost use Rattle.std.specs.Prelude.{◌≡◌, ◌++◌, ◌∷◌, [], ◌<◌, length, map, slice_set};
ghost use Rattle.cmwq_list.specs.Lists.{list_at, without_item};
ghost use Rattle.cmwq_list.specs.Links.{AreLinked, IsUnlisted, lists_of};

/// The owner of an item that is in no list.
pub(crate) const NONE: u16 = u16::MAX;

/// Links two that are to stand beside each other.
pub(crate) fn link(next: &mut [u32], prev: &mut [u32], before: u32, behind: u32)
    requires before { before < length next.old }
    requires behind { behind < length prev.old }
    ensures next { next.new ≡ slice_set next.old before behind }
    ensures prev { prev.new ≡ slice_set prev.old behind before }
{
    next[before as usize] = behind;
    prev[behind as usize] = before;
}

/// Links an item that is in no list after the last of a list (the kernel's `list_add_tail`).
pub(crate) fn link_back(
    next: &mut [u32],
    prev: &mut [u32],
    owners: &mut [u16],
    lens: &mut [u32],
    list: u16,
    item: u32,
)
    requires linked { AreLinked next.old prev.old owners.old lens.old }
    requires list { list < length lens.old }
    requires item { item < length owners.old }
    requires free { IsUnlisted owners.old item }
    ensures linked { AreLinked next.new prev.new owners.new lens.new }
    ensures lists { let lists = lists_of next.old owners.old lens.old in lists_of next.new owners.new lens.new
        ≡ slice_set lists list (list_at lists list ++ item ∷ []) }
{
    let sentinel = owners.len() as u32 + u32::from(list);
    let last = prev[sentinel as usize];
    link(next, prev, last, item);
    link(next, prev, item, sentinel);
    owners[item as usize] = list;
    lens[usize::from(list)] += 1;
}

/// Takes an item out of the list that it is in (the kernel's `list_del`).
pub(crate) fn unlink(
    next: &mut [u32],
    prev: &mut [u32],
    owners: &mut [u16],
    lens: &mut [u32],
    item: u32,
)
    requires linked { AreLinked next.old prev.old owners.old lens.old }
    requires item { item < length owners.old }
    requires listed { ¬ (IsUnlisted owners.old item) }
    ensures linked { AreLinked next.new prev.new owners.new lens.new }
    ensures lists { lists_of next.new owners.new lens.new
        ≡ map (without_item item) (lists_of next.old owners.old lens.old) }
{
    let owner = owners[item as usize];
    let before = prev[item as usize];
    let behind = next[item as usize];
    link(next, prev, before, behind);
    owners[item as usize] = NONE;
    lens[usize::from(owner)] -= 1;
}
