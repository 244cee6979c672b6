// The reply to a line: document 01, 'Frames'.
#![tactic(auto)]

mod put;
mod serve;
mod tell;

ghost use Rattle.std.specs.Prelude.{◌≡◌};
ghost use Rattle.lent.specs.Lent.{too_little, scratch_left};
ghost use Rattle.frames.specs.Replies.{answer_to, out_left};

use refusals::Refusal;

// Replying to one line, without its byte 10: how many digits the reply has, or the refusal. `out` gets the reply's digits, those of
// a refusal's number too, then zeros up to 514; the scratch gets zeros up to `lent::SCRATCH`, and both keep what stands after.
// Refuses with 1 first, where less is lent and nothing is touched; then a line that is no frame, with 2, 3 or 4, and then with what
// the line's service refuses.
pub fn reply(line: &[u8], scratch: &mut [u64], out: &mut [u8]) -> Result<u64, Refusal>
    ensures answer { result ≡ answer_to (too_little 514 scratch.old out.old) line.now }
    ensures out { out.new
        ≡ out_left (too_little 514 scratch.old out.old) line.now out.old }
    ensures scratch { scratch.new
        ≡ scratch_left (too_little 514 scratch.old out.old) scratch.old }
{
    if out.len() < 514 {
        return Err(Refusal::LittleLent);
    }
    let Some(scratch) = scratch.first_chunk_mut::<{ lent::SCRATCH }>() else {
        return Err(Refusal::LittleLent);
    };
    // A reply is written into so many bytes and no others.
    let reply = out.first_chunk_mut::<514>().unwrap();
    match lines::shape_of(line) {
        Ok(kind) => serve::serve_kind(kind, line, scratch, reply),
        Err(refusal) => serve::serve_refusal(refusal, scratch, reply),
    }
}
