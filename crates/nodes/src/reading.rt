// Reading a node from its block, in one pass, with the first rule that it breaks.
ghost use Rattle.std.specs.Prelude.{◌≡◌, ◌<◌, ◌≤◌, true, is_ok, vec_len};
ghost use Rattle.messages.specs.Outcomes.{ok_unless};
ghost use Rattle.nodes.specs.Blocks.{header_of, node_block, node_of};
ghost use Rattle.nodes.specs.Checks.{leaf_rules, inner_rules, table_rules, node_fault};
ghost use Rattle.rules.specs.HeaderRules.{SizesFit};
ghost use Rattle.rules.specs.Rules.{first_broken};
ghost use Rattle.nodes.specs.Views.{view};

use crate::node::Node;
use rows::bytes::is_zero;
use rows::row::Row;
use rows::table::read_table;
use rules::entries::read_entries;
use rules::header::Header;
use rules::limits::BLOCK_SIZE;
use rules::numbers::{are_rising, are_taken};
use rules::place::Place;
use rules::rule::Rule;

impl Node {
    ghost use Rattle.nodes.specs.Shapes.{IsReadAt};

    // Takes over the records of a leaf's block, and tells the first rule that its table breaks.
    fn load_leaf(
        &mut self,
        place: &Place,
        header: &Header,
        block: &[u8; BLOCK_SIZE],
    ) -> Result<(), Rule>
        requires leaf { place.now.level ≡ 0 }
        requires sizes { SizesFit place.now.level header.now }
        ensures fault { result ≡ ok_unless (first_broken (leaf_rules place.now header.now block.now)) tt }
        ensures node { view self.new ≡ node_of place.now header.now block.now }
        ensures sizes { IsReadAt place.now.level self.new }
    {
        self.make_leaf(place.span);
        let count = header.count as usize;
        let pass = read_entries(&block[32..], count, place.span, &mut self.records);
        Rule::Keys.unless(pass.in_order)?;
        Rule::Unused.unless(header.has_unused_zero() && pass.exact)
    }

    // Takes over the tables of an inner node's block, and tells the first rule that they break.
    fn load_inner(
        &mut self,
        place: &Place,
        header: &Header,
        block: &[u8; BLOCK_SIZE],
    ) -> Result<(), Rule>
        requires inner { 0 < place.now.level }
        requires sizes { SizesFit place.now.level header.now }
        ensures fault { result ≡ ok_unless (first_broken (inner_rules place.now header.now block.now)) tt }
        ensures node { view self.new ≡ node_of place.now header.now block.now }
        ensures sizes { IsReadAt place.now.level self.new }
    {
        self.make_leaf(place.span);
        self.level = place.level;
        let children = header.children as usize;
        let count = header.count as usize;
        let pivots_left = read_table(&block[32..60], children - 1, &mut self.pivots);
        let children_left = read_table(&block[60..92], children, &mut self.children);
        let pass = read_entries(&block[92..], count, place.span, &mut self.messages);
        let unused_zero = header.has_unused_zero()
            && is_zero(pivots_left)
            && is_zero(children_left)
            && pass.exact;
        Rule::Pivots.unless(are_rising(&self.pivots, place.span))?;
        Rule::ChildNumbers.unless(are_taken(&self.children, place.next_free))?;
        Rule::Keys.unless(pass.in_order)?;
        Rule::Unused.unless(unused_zero)
    }

    // Takes over the tables of a block whose header is good, and tells the first rule that they break.
    pub fn load(
        &mut self,
        place: &Place,
        header: &Header,
        block: &[u8; BLOCK_SIZE],
    ) -> Result<(), Rule>
        requires sizes { SizesFit place.now.level header.now }
        ensures fault { result ≡ ok_unless (first_broken (table_rules place.now header.now block.now)) tt }
        ensures node { view self.new ≡ node_of place.now header.now block.now }
        ensures sizes { IsReadAt place.now.level self.new }
    {
        if place.level == 0 {
            self.load_leaf(place, header, block)
        } else {
            self.load_inner(place, header, block)
        }
    }

    // Takes over the node of a block below the root, or tells the first rule that the block breaks at its place.
    pub fn read(&mut self, place: &Place, block: &[u8; BLOCK_SIZE]) -> Result<(), Rule>
        ensures answer { result ≡ ok_unless (node_fault place.now block.now) tt }
        ensures node { is_ok result ≡ true → view self.new ≡ node_of place.now (header_of block.now) block.now }
        ensures exact { is_ok result ≡ true → block.now ≡ node_block place.now.kind (view self.new) }
        ensures sizes { is_ok result ≡ true → IsReadAt place.now.level self.new }
    {
        let header = Header::read(block);
        header.check_below(place)?;
        self.load(place, &header, block)
    }
}
