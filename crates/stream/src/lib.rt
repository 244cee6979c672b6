// Answering a file of lines block by block: document 01, 'Frames'. A line ends at byte 10; each reply is followed by a byte 10. Of
// a line that a block does not end, the first 515 characters are kept for the next block: a line that long is refused in any
// case. Every public function here takes any input.
#![tactic(auto)]

ghost use Rattle.std.specs.Prelude.{◌≡◌, false, [], ◌++◌, ◌+◌, ◌≤◌, length, take};
ghost use Rattle.lent.specs.Lent.{filled, OnlyFirst, scratch_size, scratch_left};
ghost use Rattle.lines.specs.Stream.{finished, unfinished, last_line};
ghost use Rattle.frames.specs.Replies.{reply_of};
ghost use Rattle.stream.specs.Answers.{little, Lending, Goes, used_of, fed_of, kept_left, replies_left, ended_of};
ghost use Rattle.stream.specs.Pieces.{NextEnd, Keeps, Adds, Wrote, digits_told};

use refusals::Refusal;

// How far a block is answered: how much of it was used, how many characters are kept of the line that it leaves unfinished, and how
// many bytes of replies were written.
#[derive(Clone, Copy)]
pub struct Progress {
    pub used: usize,
    pub kept: usize,
    pub written: usize,
}

// Whether too little is lent.
fn is_little(kept: &[u8], k: usize, scratch: &[u64], out: &[u8]) -> bool
    ensures { result ≡ little kept.now k scratch.now out.now }
{
    if scratch.len() < lent::SCRATCH {
        return true;
    }
    if out.len() < 515 {
        return true;
    }
    if kept.len() < 515 {
        return true;
    }
    k > 515
}

// The index of the first byte 10 of the block from `from` on, if there is one.
fn line_end(block: &[u8], from: usize) -> Option<usize>
    requires { from ≤ length block.now }
    ensures { NextEnd block.now from result }
{
    let behind = block[from..].iter().position(|byte| *byte == 10)?;
    Some(from + behind)
}

// Adds a piece to the k characters that are kept of a line, up to 515 in all, and tells how many are kept then.
fn keep(part: &[u8], kept: &mut [u8], k: usize) -> usize
    requires { (k ≤ 515) × (515 ≤ length kept.old) }
    ensures { Keeps (take k kept.old ++ part.now) kept.old kept.new result }
{
    let more = (515 - k).min(part.len());
    kept[k..k + more].copy_from_slice(&part[..more]);
    k + more
}

// How many digits a reply has: a refusal's number has two.
fn digits_told(told: Result<u64, Refusal>) -> usize
    ensures { result ≡ digits_told told }
{
    match told {
        Ok(n) => n as usize,
        Err(_) => 2,
    }
}

// Writes the reply to a line at the start of a part, and tells its length.
fn put_reply(line: &[u8], scratch: &mut [u64], part: &mut [u8]) -> usize
    requires { (scratch_size ≤ length scratch.old) × (514 ≤ length part.old) }
    ensures value { (result ≡ length (reply_of line.now)) × (result ≤ 514) }
    ensures part_after { part.new ≡ filled 514 (reply_of line.now) part.old }
    ensures scratch_after { scratch.new ≡ filled scratch_size [] scratch.old }
{
    digits_told(frames::reply(line, scratch, part))
}

// Writes the reply to a line and its byte 10 at `at`, and tells where they end.
fn answer_line(line: &[u8], scratch: &mut [u64], out: &mut [u8], at: usize) -> usize
    requires { (scratch_size ≤ length scratch.old) × (at + 515 ≤ length out.old) }
    ensures adds { Adds (reply_of line.now) at out.old out.new result }
    ensures scratch_after { scratch.new ≡ filled scratch_size [] scratch.old }
{
    let end = at + put_reply(line, scratch, &mut out[at..]);
    out[end] = 10;
    end + 1
}

// Answers the line that the k kept characters and a part make. Where none are kept, the part is the line and is not copied.
fn finish_line(
    part: &[u8],
    kept: &mut [u8],
    k: usize,
    scratch: &mut [u64],
    out: &mut [u8],
    at: usize,
) -> usize
    requires lending { Lending kept.old k scratch.old out.old }
    requires at_in_bounds { at + 515 ≤ length out.old }
    ensures adds { Adds (reply_of (take k kept.old ++ part.now)) at out.old out.new result }
    ensures scratch_after { scratch.new ≡ filled scratch_size [] scratch.old }
    ensures only_first { OnlyFirst 515 kept.old kept.new }
{
    if k == 0 {
        return answer_line(part, scratch, out, at);
    }
    let n = keep(part, kept, k);
    answer_line(&kept[0..n], scratch, out, at)
}

// Answers the lines that end in a block, as many as `out` has room for, and keeps the line that the block leaves unfinished.
fn answer_lines(
    block: &[u8],
    kept: &mut [u8],
    k: usize,
    scratch: &mut [u64],
    out: &mut [u8],
) -> Progress
    requires { Lending kept.old k scratch.old out.old }
    ensures goes { Goes (take k kept.old) block.now out.old result.used }
    ensures wrote { Wrote (finished (take k kept.old) (take result.used block.now)) out.old
        out.new result.written }
    ensures keeps { Keeps (unfinished (take k kept.old) (take result.used block.now)) kept.old
        kept.new result.kept }
    ensures only_first { OnlyFirst scratch_size scratch.old scratch.new }
{
    let mut at = 0;
    let mut left = k;
    let mut written = 0;
    // `split` would give the same lines, and not tell whether the last of them has ended.
    while let Some(end) = line_end(block, at) {
        if out.len() - written < 515 {
            return Progress {
                used: at,
                kept: left,
                written,
            };
        }
        written = finish_line(&block[at..end], kept, left, scratch, out, written);
        left = 0;
        at = end + 1;
    }
    Progress {
        used: block.len(),
        kept: keep(&block[at..], kept, left),
        written,
    }
}

// Zeroes the places behind the n characters that are kept, up to 515.
fn clear_behind(kept: &mut [u8], n: usize)
    requires { (n ≤ 515) × (515 ≤ length kept.old) }
    ensures { kept.new ≡ filled 515 (take n kept.old) kept.old }
{
    kept[n..515].fill(0);
}

// The caller lends all memory, since the project uses no heap: so `kept` and its length k, the scratch and `out` are parameters here,
// slices of any length.

// Answers a block of a file. The first k of `kept` hold what was kept of the line that the block goes on with, nothing at the start
// of a file. `out` gets the replies to the lines that end in the block, as many as there is room for: 515 bytes are asked for each,
// which take the longest reply and its byte 10. `used` bytes of the block have been consumed; the rest of it is for the next call.
// `kept` gets the first 515 characters of the line that is left unfinished, then zeros up to 515; the scratch gets zeros up to
// `lent::SCRATCH`; both keep what stands after. Refuses with 1 where less than `lent::SCRATCH` of scratch, 515 of kept or 515 of
// out is lent, or k is above 515; then nothing is touched.
#[tactic(auto, using(crate::specs::AnswerLaws::lent_enough), unfolding(crate::specs::Answers::used_of, crate::specs::Answers::fed_of, crate::specs::Answers::kept_left, crate::specs::Answers::replies_left, lent::specs::Lent::memory_left))]
pub fn answer_block(
    block: &[u8],
    kept: &mut [u8],
    k: usize,
    scratch: &mut [u64],
    out: &mut [u8],
) -> Result<Progress, Refusal>
    ensures answer { result
        ≡ fed_of (little kept.old k scratch.old out.old) (take k kept.old)
        block.now (used_of result) }
    ensures goes { little kept.old k scratch.old out.old ≡ false
        → Goes (take k kept.old) block.now out.old (used_of result) }
    ensures kept { kept.new
        ≡ kept_left (little kept.old k scratch.old out.old)
        (unfinished (take k kept.old) (take (used_of result) block.now)) kept.old }
    ensures out { out.new
        ≡ replies_left (little kept.old k scratch.old out.old)
        (finished (take k kept.old) (take (used_of result) block.now)) out.old }
    ensures scratch { scratch.new
        ≡ scratch_left (little kept.old k scratch.old out.old) scratch.old }
{
    if is_little(kept, k, scratch, out) {
        return Err(Refusal::LittleLent);
    }
    let gone = answer_lines(block, kept, k, scratch, out);
    clear_behind(kept, gone.kept);
    lent::clear_scratch(scratch);
    Ok(gone)
}

// Answers what is kept at the end of a file: a line, unless it is empty. Tells how many bytes were written. The scratch gets zeros
// up to `lent::SCRATCH`. Refuses with 1 where less is lent than `answer_block` asks for; then nothing is touched.
#[tactic(auto, using(crate::specs::AnswerLaws::lent_enough), unfolding(crate::specs::Answers::ended_of, crate::specs::Answers::replies_left, lent::specs::Lent::memory_left))]
pub fn answer_end(
    kept: &[u8],
    k: usize,
    scratch: &mut [u64],
    out: &mut [u8],
) -> Result<usize, Refusal>
    ensures answer { result
        ≡ ended_of (little kept.now k scratch.old out.old) (take k kept.now) }
    ensures out { out.new
        ≡ replies_left (little kept.now k scratch.old out.old)
        (last_line (take k kept.now)) out.old }
    ensures scratch { scratch.new
        ≡ scratch_left (little kept.now k scratch.old out.old) scratch.old }
{
    if is_little(kept, k, scratch, out) {
        return Err(Refusal::LittleLent);
    }
    if k == 0 {
        lent::clear_scratch(scratch);
        return Ok(0);
    }
    Ok(answer_line(&kept[0..k], scratch, out, 0))
}
