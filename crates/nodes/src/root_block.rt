// The root and its block.
ghost use Rattle.std.specs.Prelude.{◌≡◌, ◌<◌, ◌≤◌, true, is_ok, IfOk, vec_len};
ghost use Rattle.nodes.specs.Checks.{root_fault};
ghost use Rattle.messages.specs.Outcomes.{ok_unless};
ghost use Rattle.rules.specs.HeaderRules.{root_place};
ghost use Rattle.nodes.specs.Blocks.{header_of};
ghost use Rattle.rules.specs.Marks.{mark_of};
ghost use Rattle.nodes.specs.Roots.{root_header, root_block, root_of, view_root};

use crate::root::Root;
use rows::row::Row;
use rules::header::Header;
use rules::limits::BLOCK_SIZE;
use rules::mark::Mark;
use rules::rule::Rule;

impl Root {
    ghost use Rattle.nodes.specs.Shapes.{IsSoundRoot, HasAllKeys};

    // The header of the root.
    fn header(&self, mark: Mark) -> Header
        ensures { result ≡ root_header mark (view_root self.now) }
    {
        Header {
            mark: mark.number(),
            next_free: self.next_free,
            updates: self.updates,
            tree_writes: self.tree_writes,
            ..self.node.header(self.kind)
        }
    }

    // Fills the block with the root, under a mark.
    pub fn write(&self, mark: Mark, block: &mut [u8; BLOCK_SIZE])
        ensures { block.new ≡ root_block mark (view_root self.now) }
    {
        self.header(mark).write(&mut block[0..32]);
        self.node.write_tables(block);
    }

    // Takes over the root of a block on a device of `size` blocks and gives its mark, or tells the first rule that the block breaks.
    pub fn read(&mut self, size: u32, block: &[u8; BLOCK_SIZE]) -> Result<Mark, Rule>
        ensures answer { result ≡ ok_unless (root_fault size block.now) (mark_of (header_of block.now).mark) }
        ensures root { is_ok result ≡ true → view_root self.new ≡ root_of block.now }
        ensures exact { IfOk result (λ mark. block.now ≡ root_block mark (view_root self.new)) }
        ensures limits { is_ok result ≡ true → IsSoundRoot self.new }
        ensures span { is_ok result ≡ true → HasAllKeys self.new }
    {
        let header = Header::read(block);
        let mark = header.check_root(size)?;
        self.kind = header.kind;
        self.next_free = header.next_free;
        self.updates = header.updates;
        self.tree_writes = header.tree_writes;
        self.node.load(&header.root_place(), &header, block)?;
        Ok(mark)
    }
}
