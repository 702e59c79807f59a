//! The rows of a file, field by field.
ghost use Rattle.std.specs.Prelude.{◌^◌, ◌<◌};
ghost use Rattle.std.specs.List.{flat_map};
ghost use Rattle.packed_file.specs.Format.{edge_fields, row_fields};
ghost use Rattle.packed_writer.specs.Writing.{Room, Writes};

use crate::bit_writer::BitWriter;
use crate::chain_row::ChainRow;
use bits::mirror::mirror;
use chain::Chain;

impl BitWriter<'_> {
    fn put_edge(&mut self, target: usize, weight: u32)
        requires target_fits { target < 2 ^ 10 }
        requires weight_fits { weight < 2 ^ 16 }
        requires room { Room self.old (edge_fields (target, weight)) }
        ensures { Writes self.old self.new (edge_fields (target, weight)) }
    {
        self.put(10, target as u32);
        self.put(16, weight);
    }

    fn put_edges<C: Chain>(&mut self, row: &ChainRow<'_, C>)
        requires { Room self.old (flat_map edge_fields row.now.edges) }
        ensures { Writes self.old self.new (flat_map edge_fields row.now.edges) }
    {
        for place in 0..row.edge_count() {
            let (target, weight) = row.edge(place);
            self.put_edge(target, weight);
        }
    }

    fn put_row<C: Chain>(&mut self, row: &ChainRow<'_, C>)
        requires { Room self.old (row_fields row.now) }
        ensures { Writes self.old self.new (row_fields row.now) }
    {
        let letters = mirror(row.propositions());
        self.put(16, letters as u32);
        self.put(11, row.edge_count() as u32);
        self.put_edges(row);
    }

    pub(crate) fn put_rows<C: Chain>(&mut self, chain: &C)
        requires { Room self.old (flat_map row_fields (C.Chain.meaning chain.now).rows) }
        ensures { Writes self.old self.new (flat_map row_fields (C.Chain.meaning chain.now).rows) }
    {
        for state in 0..chain.states() {
            self.put_row(&ChainRow::new(chain, state));
        }
    }
}
