//! Lines out of a source, each with its piece.

ghost use Rattle.std.specs.Prelude.{◌≡◌, ◌≢◌, ℕ, ◌+◌, ◌-◌, ◌^◌, ◌<◌, ◌≤◌, List, Result, [], ◌∷◌, ◌++◌, length, Ok, Err, Some, None, IfOk, IfErr};
ghost use Rattle.std.specs.Result.{result_ok};
ghost use Rattle.log_pieces.specs.declared.fault.LineFault.{LineFault};
ghost use Rattle.log_pieces.specs.Piece.{PieceValue};
ghost use Rattle.replica.specs.Lines.{HasNoEnd, IsReadFault, pending};
ghost use Rattle.replica.specs.Judged.{IsJudged};

use crate::fault::GatherFault;
use crate::lines::{Chunk, LineEnd, next_line, pass_line};
use byte_streams::Source;
use log_pieces::{DecodeFault, LONGEST_LINE, LineFault, Piece, read_line};
use std::alloc::Global;
use wasm_types::NoMemory;

/// What came next out of a source.
#[derive(Drop)]
pub(crate) enum Judged {
    /// A line: its piece, or what is wrong where it is no piece line.
    Line(Result<Piece, LineFault>),
    /// The same of a line that lacks its end, and then the end of the source.
    Last(Result<Piece, LineFault>),
    /// More bytes of a line than any piece line has, not yet with its end.
    TooLong,
    /// The end of the source.
    End,
}

/// The piece of a line, or what is wrong where it is no piece line.
fn judge(alloc: Global, line: &[u8]) -> Result<Result<Piece, LineFault>, NoMemory>
    ensures { IfOk result (λ judged. IsJudged line.now (result_ok judged)) }
{
    match read_line(alloc, line) {
        Ok(piece) => Ok(Ok(piece)),
        Err(DecodeFault::NotAPiece(fault)) => Ok(Err(fault)),
        Err(DecodeFault::NoMemory) => Err(NoMemory),
    }
}

/// Judges a line that lacks its end, or finds the end of the source where it has no bytes.
fn judge_last(alloc: Global, line: &mut Vec<u8>) -> Result<Judged, NoMemory>
    ensures line { (judged : Result PieceValue LineFault) → result ≡ Ok (Judged.Line judged) → ⊥ }
    ensures last { (judged : Result PieceValue LineFault) → result ≡ Ok (Judged.Last judged) → (line.old.items ≢ []) × IsJudged (line.old.items ++ 10 ∷ []) (result_ok judged) }
    ensures too_long { result ≡ Ok Judged.TooLong → ⊥ }
    ensures end { result ≡ Ok Judged.End → line.old.items ≡ [] }
{
    if line.is_empty() {
        return Ok(Judged::End);
    }
    if line.push(b'\n').is_err() {
        return Err(NoMemory);
    }
    match judge(alloc, line) {
        Ok(judged) => Ok(Judged::Last(judged)),
        Err(NoMemory) => Err(NoMemory),
    }
}

/// Reads the next line and judges it.
pub(crate) fn next_judged<R: Source>(
    alloc: Global,
    source: &mut R,
    chunk: &mut Chunk,
    line: &mut Vec<u8>,
) -> Result<Judged, GatherFault>
    requires { R.failed source.old < 2 ^ 64 - 1 }
    ensures line { (judged : Result PieceValue LineFault) → result ≡ Ok (Judged.Line judged) → ((got front : List ℕ) × R.brings source.old got source.new × HasNoEnd front × (chunk.old ++ got ≡ front ++ 10 ∷ chunk.new) × IsJudged (front ++ 10 ∷ []) (result_ok judged)) }
    ensures last { (judged : Result PieceValue LineFault) → result ≡ Ok (Judged.Last judged) → ((got front : List ℕ) × R.brings source.old got source.new × R.ended source.new × HasNoEnd front × (front ≢ []) × (chunk.old ++ got ≡ front) × IsJudged (front ++ 10 ∷ []) (result_ok judged)) }
    ensures too_long { result ≡ Ok Judged.TooLong → ((got front : List ℕ) × R.brings source.old got source.new × HasNoEnd front × (chunk.old ++ got ≡ front ++ chunk.new) × (LONGEST_LINE < length front)) }
    ensures end { result ≡ Ok Judged.End → ((got : List ℕ) × R.brings source.old got source.new × R.ended source.new × (chunk.old ++ got ≡ [])) }
    ensures source_failed { result ≡ Err GatherFault.SourceFailed → ((got : List ℕ) × R.brings source.old got source.new × HasNoEnd (chunk.old ++ got)) × (R.failed source.new ≡ R.failed source.old + 1) }
    ensures none_failed { (result ≡ Err GatherFault.SourceFailed → ⊥) → R.failed source.new ≡ R.failed source.old }
    ensures errors { IfErr result IsReadFault }
    ensures fewer { (judged : Result PieceValue LineFault) → result ≡ Ok (Judged.Line judged) → pending (R.calls source.new) chunk.new < pending (R.calls source.old) chunk.old }
    ensures no_more { result ≡ Ok Judged.TooLong → pending (R.calls source.new) chunk.new ≤ pending (R.calls source.old) chunk.old }
{
    match next_line(source, chunk, line) {
        Err(fault) => Err(fault),
        Ok(LineEnd::TooLong) => Ok(Judged::TooLong),
        Ok(LineEnd::Whole) => match judge(alloc, line) {
            Ok(judged) => Ok(Judged::Line(judged)),
            Err(NoMemory) => Err(GatherFault::NoMemory),
        },
        Ok(LineEnd::Last) => match judge_last(alloc, line) {
            Ok(judged) => Ok(judged),
            Err(NoMemory) => Err(GatherFault::NoMemory),
        },
    }
}

/// Reads the next line and judges it, a line that is too long up to its end.
pub(crate) fn next_whole<R: Source>(
    alloc: Global,
    source: &mut R,
    chunk: &mut Chunk,
    line: &mut Vec<u8>,
) -> Result<Judged, GatherFault>
    requires { R.failed source.old < 2 ^ 64 - 1 }
    ensures line { (judged : Result PieceValue LineFault) → result ≡ Ok (Judged.Line judged) → ((got front : List ℕ) × R.brings source.old got source.new × HasNoEnd front × (chunk.old ++ got ≡ front ++ 10 ∷ chunk.new) × IsJudged (front ++ 10 ∷ []) (result_ok judged)) }
    ensures last { (judged : Result PieceValue LineFault) → result ≡ Ok (Judged.Last judged) → ((got front : List ℕ) × R.brings source.old got source.new × R.ended source.new × HasNoEnd front × (front ≢ []) × (chunk.old ++ got ≡ front) × IsJudged (front ++ 10 ∷ []) (result_ok judged)) }
    ensures whole { result ≡ Ok Judged.TooLong → ⊥ }
    ensures end { result ≡ Ok Judged.End → ((got : List ℕ) × R.brings source.old got source.new × R.ended source.new × (chunk.old ++ got ≡ [])) }
    ensures source_failed { result ≡ Err GatherFault.SourceFailed → R.failed source.new ≡ R.failed source.old + 1 }
    ensures none_failed { (result ≡ Err GatherFault.SourceFailed → ⊥) → R.failed source.new ≡ R.failed source.old }
    ensures errors { IfErr result IsReadFault }
    ensures fewer { (judged : Result PieceValue LineFault) → result ≡ Ok (Judged.Line judged) → pending (R.calls source.new) chunk.new < pending (R.calls source.old) chunk.old }
{
    match next_judged(alloc, source, chunk, line) {
        Ok(Judged::TooLong) => match pass_line(source, chunk, line) {
            Ok(true) => Ok(Judged::Line(Err(LineFault::TooLong))),
            Ok(false) => Ok(Judged::Last(Err(LineFault::TooLong))),
            Err(fault) => Err(fault),
        },
        Ok(judged) => Ok(judged),
        Err(fault) => Err(fault),
    }
}
