// Reading boxes.
ghost use Rattle.std.specs.Prelude.{◌≡◌, ◌≢◌, IfOk, IfErr, Ok, Err};
ghost use Rattle.cpl_fixed.specs.Results.{Gives, Returns};
ghost use Rattle.cpl_lines.specs.Steps.{is_out_of_memory};
ghost use Rattle.cpl_mkx.specs.declared.boxes.BoxPair.{BoxPair as BoxPairValue};
ghost use Rattle.cpl_mkx.specs.declared.fault.BoxesError.{BoxesError as BoxesErrorValue};
ghost use Rattle.cpl_mkx.specs.declared.fault.BoxesError.TheVariants.{Memory};
ghost use Rattle.cpl_mkx.specs.Faults.{is_memory};
ghost use Rattle.cpl_mkx.specs.Boxes.{IsBoxPair, IsReadingFault, boxes_text};
ghost use Rattle.cpl_mkx.specs.Reading.{lines_in, boxes_of};
ghost use Rattle.cpl_mkx.specs.Readers.{pair_of};

use crate::BoxesError;
use crate::boxes::{BoxMesh, BoxPair};
use crate::judge::boxes_fault;
use crate::reader::{MeshParts, Reader};
use cpl_fixed::List;
use cpl_lines::LinesError;
use std::alloc::Global;

// Reads all lines, in one pass.
fn lines(alloc: Global, bytes: &[u8]) -> Result<Reader, LinesError>
    ensures { Gives is_out_of_memory pair_of result (lines_in bytes.now) }
{
    let mut reader = Reader::new(alloc);
    let mut rest = bytes;
    let mut number = 1u32;
    'turns: while !reader.is_done() {
        rest = match reader.line(alloc, rest) {
            Ok(rest) => rest,
            Err(fault) => return Err(fault.at(number)),
        };
        number += 1;
    }
    if !rest.is_empty() {
        return Err(LinesError::Syntax(number));
    }
    Ok(reader)
}

// A grid of boxes that was read.
fn mesh(parts: MeshParts) -> BoxMesh
    ensures x { result.x ≡ parts.x.items }
    ensures y { result.y ≡ parts.y.items }
    ensures cyclic { result.cyclic ≡ parts.cyclic }
    ensures fold { result.fold ≡ parts.fold }
{
    BoxMesh {
        x: List::from_vec(parts.x),
        y: List::from_vec(parts.y),
        cyclic: parts.cyclic,
        fold: parts.fold,
    }
}

// The two grids that were read.
fn pair(reader: Reader) -> BoxPair
    ensures { result ≡ pair_of reader }
{
    BoxPair {
        air: mesh(reader.air),
        ocean: mesh(reader.ocean),
        wet: List::from_vec(reader.wet),
        column: reader.column,
    }
}

// Reads all lines, and then judges the rules.
fn boxes(alloc: Global, bytes: &[u8]) -> Result<BoxPair, BoxesError>
    ensures { Returns is_memory result (boxes_of bytes.now) }
{
    let reader = lines(alloc, bytes)?;
    match boxes_fault(&reader) {
        Some(fault) => Err(fault),
        None => Ok(pair(reader)),
    }
}

/// The boxes that bytes spell, or their first fault. The format is defined by this project: two grids of boxes have one spelling.
///
/// Its lines are, in this order: `boxes 1`; `air NX NY CYCLIC FOLD`; `x` with NX+1 edges; `y` with NY+1 edges;
/// `ocean NX NY CYCLIC FOLD`; its `x` and `y`; NY lines `wet` of NX digits each, row 0 first; `column LAYERS CATEGORIES`; `end`.
/// CYCLIC, FOLD and the digits are 0 or 1. Each line ends with a line feed, and one blank stands between two fields.
///
/// `Syntax` and `Limit` name the first line at fault, where a line's form comes before its limits. Then `Order` names the first line
/// whose edges don't rise strictly, and `OddFold` the air or the ocean, if it is folded and its number of columns is odd.
pub fn read_boxes(alloc: Global, bytes: &[u8]) -> Result<BoxPair, BoxesError>
    // What is read is spelled so, and keeps the rules.
    ensures found { IfOk result IsBoxPair }
    ensures spelled { IfOk result (λ pair. bytes.now ≡ boxes_text pair) }
    // What is spelled so is read, unless memory ran out.
    ensures only { (pair : BoxPairValue) → IsBoxPair pair → bytes.now ≡ boxes_text pair
        → Returns is_memory result (Ok pair) }
    // Which fault it is.
    ensures fault { IfErr result (IsReadingFault bytes.now) }
    // Each first fault is told, unless memory ran out, so there is one at most.
    ensures told { (fault : BoxesErrorValue) → fault ≢ Memory → IsReadingFault bytes.now fault
        → Returns is_memory result (Err fault) }
    ensures exact { Returns is_memory result (boxes_of bytes.now) }
{
    boxes(alloc, bytes)
}
