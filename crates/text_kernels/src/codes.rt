//! Answers that are asked once for each code of a block, by row.

ghost use Rattle.std.specs.Prelude.{◌≡◌, ◌<◌, ℕ, IfOk, length, slice_index_or};
ghost use Rattle.number_kernels.specs.Lanes.{truth_lane, HasTruths};

use number_kernels::Fallback;
use row_eval::Truth;
use std::alloc::Global;

/// Writes the answer of each row, which is that of its code.
fn spread_each(codes: &[u8], answers: &[Truth], out: &mut [Truth])
    requires long { length out.old ≡ length codes.now }
    requires codes { (row : ℕ) → row < length codes.now
        → slice_index_or codes.now row 0 < length answers.now }
    ensures { (row : ℕ) → row < length codes.now
        → truth_lane out.new row ≡ truth_lane answers.now (slice_index_or codes.now row 0) }
{
    for row in 0..out.len() {
        out[row] = answers[codes[row] as usize];
    }
}

/// Returns the answer of each row, which is that of its code.
pub fn spread(alloc: Global, codes: &[u8], answers: &[Truth]) -> Result<Vec<Truth>, Fallback>
    requires { (row : ℕ) → row < length codes.now
        → slice_index_or codes.now row 0 < length answers.now }
    ensures { IfOk result (λ truths. HasTruths (length codes.now)
        (λ row. truth_lane answers.now (slice_index_or codes.now row 0)) truths.items) }
{
    let mut truths = Vec::from_elem(alloc, Truth::False, codes.len())?;
    spread_each(codes, answers, truths.as_mut_slice());
    Ok(truths)
}
