// Writing a node to its block.
ghost use Rattle.std.specs.Prelude.{◌≡◌, ◌++◌, take};
ghost use Rattle.nodes.specs.Blocks.{header_below, node_block, tables_of};
ghost use Rattle.nodes.specs.Views.{view};

use crate::node::Node;
use rows::row::Row;
use rows::table::write_table;
use rules::header::Header;
use rules::limits::BLOCK_SIZE;

impl Node {
    // The header of the node below the root.
    pub(crate) fn header(&self, kind: u8) -> Header
        ensures { result ≡ header_below kind (view self.now) }
    {
        let count = if self.level == 0 {
            self.records.len()
        } else {
            self.messages.len()
        };
        Header {
            level: self.level,
            mark: 0,
            count: count as u16,
            children: self.children.len() as u8,
            kind,
            unused: 0,
            next_free: 0,
            gap: 0,
            updates: 0,
            tree_writes: 0,
        }
    }

    // Writes the tables behind the header.
    pub fn write_tables(&self, block: &mut [u8; BLOCK_SIZE])
        ensures { block.new ≡ take 32 block.old ++ tables_of (view self.now) }
    {
        if self.level == 0 {
            write_table(&mut block[32..], &self.records);
        } else {
            write_table(&mut block[32..60], &self.pivots);
            write_table(&mut block[60..92], &self.children);
            write_table(&mut block[92..], &self.messages);
        }
    }

    // Fills the block with the node, as it stands below the root of a store of a kind.
    pub fn write(&self, kind: u8, block: &mut [u8; BLOCK_SIZE])
        ensures { block.new ≡ node_block kind (view self.now) }
    {
        self.header(kind).write(&mut block[0..32]);
        self.write_tables(block);
    }
}
