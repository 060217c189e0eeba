// The rules on a block's header.
ghost use Rattle.std.specs.Prelude.{◌≡◌, ◌<◌, ◌≤◌, ◌&&◌, OnOk, nat_le};
ghost use Rattle.messages.specs.Outcomes.{ok_unless};
ghost use Rattle.rules.specs.HeaderRules.{SizesFit, children_fit, header_rules, root_children_fit, root_header_rules, header_zero, unused_zero, root_place, within};
ghost use Rattle.tree.specs.Limits.{most_entries};
ghost use Rattle.rules.specs.Marks.{mark_of};
ghost use Rattle.rules.specs.Rules.{first_broken};

use crate::header::Header;
use crate::limits::{
    ALL_KEYS, FIRST_FREE, LEAST_CHILDREN, MOST_CHILDREN, MOST_ENTRIES, MOST_LEVEL, MOST_UPDATES,
};
use crate::mark::Mark;
use crate::place::Place;
use crate::rule::Rule;

impl Header {
    // Whether there are no more messages or records than a block may hold.
    fn has_few_entries(&self) -> bool
        ensures { result ≡ nat_le self.now.count most_entries }
    {
        usize::from(self.count) <= MOST_ENTRIES
    }

    // Whether bytes 8 to 31 are zero.
    fn is_zero_from_8(&self) -> bool
        ensures { result ≡ header_zero self.now }
    {
        self.next_free == 0 && self.gap == 0 && self.updates == 0 && self.tree_writes == 0
    }

    // Whether bytes 6, 7 and 12 to 15 are zero.
    pub fn has_unused_zero(&self) -> bool
        ensures { result ≡ unused_zero self.now }
    {
        self.unused == 0 && self.gap == 0
    }

    // Whether the number of children is that of a node below the root.
    fn children_fit(&self, level: u8) -> bool
        ensures { result ≡ children_fit level self.now.children }
    {
        if level == 0 {
            self.children == 0
        } else {
            (LEAST_CHILDREN..=MOST_CHILDREN).contains(&self.children)
        }
    }

    // Whether the number of children is that of the root.
    fn root_children_fit(&self) -> bool
        ensures { result ≡ root_children_fit self.now.level self.now.children }
    {
        let least = if self.level == 1 { 1 } else { 2 };
        (least..=MOST_CHILDREN).contains(&self.children)
    }

    // Whether the root's next free number and its updates are in range, on a device of `size` blocks.
    fn root_numbers_fit(&self, size: u32) -> bool
        ensures { result ≡ (within 2 size self.now.next_free && nat_le self.now.updates 4294967296) }
    {
        (FIRST_FREE..=size).contains(&self.next_free) && self.updates <= MOST_UPDATES
    }

    // Tells the first rule that the header of a node below the root breaks.
    pub fn check_below(&self, place: &Place) -> Result<(), Rule>
        ensures value { result ≡ ok_unless (first_broken (header_rules place.now self.now)) tt }
        ensures fits { OnOk result (SizesFit place.now.level self.now) }
    {
        Rule::Level.unless(self.level == place.level)?;
        Rule::Mark.unless(self.mark == 0)?;
        Rule::Count.unless(self.has_few_entries())?;
        Rule::Children.unless(self.children_fit(place.level))?;
        Rule::Kind.unless(self.kind == place.kind)?;
        Rule::HeaderNumbers.unless(self.is_zero_from_8())
    }

    // The mark of the root, or the first rule that its header breaks, on a device of `size` blocks.
    pub fn check_root(&self, size: u32) -> Result<Mark, Rule>
        ensures value { result ≡ ok_unless (first_broken (root_header_rules size self.now)) (mark_of self.now.mark) }
        ensures fits { OnOk result (SizesFit self.now.level self.now) }
        ensures limits { OnOk result ((0 < self.now.level) × (self.now.level ≤ 8) × (self.now.updates ≤ 4294967296)) }
    {
        Rule::Level.unless((1..=MOST_LEVEL).contains(&self.level))?;
        let mark = Mark::try_from(self.mark)?;
        Rule::Count.unless(self.has_few_entries())?;
        Rule::Children.unless(self.root_children_fit())?;
        Rule::HeaderNumbers.unless(self.root_numbers_fit(size))?;
        Ok(mark)
    }

    // Where the root stands, as its own header says.
    pub fn root_place(&self) -> Place
        ensures { result ≡ root_place self.now }
    {
        Place {
            level: self.level,
            span: ALL_KEYS,
            kind: self.kind,
            next_free: self.next_free,
        }
    }
    // The root's mark, where it is 1 or 2.
    pub fn root_mark(&self) -> Mark
        ensures { result ≡ mark_of self.now.mark }
    {
        Mark::try_from(self.mark).unwrap_or(Mark::InUse)
    }
}
