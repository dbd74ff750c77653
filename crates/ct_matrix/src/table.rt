ghost use Rattle.std.specs.Prelude.{◌≡◌};
ghost use Rattle.ct_matrix.specs.Matrix.{row_of, column_of, action_of};

use crate::cells::Action;
use crate::cells::Action::{Block, Extent, OptBlock, OptExtent, Pass, Skip};
use ct_cdb::SerIdx;

/// A row of the table: a command of this index beside one of each index, in the order of `column`.
#[rattlefmt::skip]
fn row(index: SerIdx) -> [Action; 12]
    ensures { result ≡ row_of index }
{
    match index {
        SerIdx::Tur => [Pass, Skip, Skip, Pass, Pass, Pass, Pass, Pass, Pass, Block, Block, Block],
        SerIdx::Inq | SerIdx::RqS | SerIdx::Cap => [Pass, Skip, Skip, Pass, Pass, Pass, Pass, Pass, Pass, Pass, Pass, Pass],
        SerIdx::Rd => [Pass, Skip, Skip, Pass, Pass, OptExtent, OptExtent, Pass, Pass, Block, Block, Block],
        SerIdx::Wr => [Pass, Skip, Skip, Pass, OptExtent, Extent, OptExtent, OptBlock, Pass, Block, Block, Block],
        SerIdx::Un => [Pass, Skip, Skip, Pass, OptExtent, OptExtent, OptExtent, OptBlock, Pass, Block, Block, Block],
        SerIdx::Sy | SerIdx::MSn => [Pass, Skip, Skip, Pass, Pass, Pass, Pass, Pass, Pass, Block, Block, Block],
        SerIdx::MSl | SerIdx::Res | SerIdx::Sta => [Block, Skip, Skip, Block, Block, Block, Block, Block, Block, Block, Block, Block],
    }
}

/// The column of an index.
fn column(index: SerIdx) -> usize
    ensures { result ≡ column_of index }
{
    match index {
        SerIdx::Tur => 0,
        SerIdx::Inq => 1,
        SerIdx::RqS => 2,
        SerIdx::Cap => 3,
        SerIdx::Rd => 4,
        SerIdx::Wr => 5,
        SerIdx::Un => 6,
        SerIdx::Sy => 7,
        SerIdx::MSn => 8,
        SerIdx::MSl => 9,
        SerIdx::Res => 10,
        SerIdx::Sta => 11,
    }
}

/// The cell of the table for two indexes.
pub fn action(a: SerIdx, b: SerIdx) -> Action
    ensures { result ≡ action_of a b }
{
    row(a)[column(b)]
}
