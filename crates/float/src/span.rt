// Samples put at the end of a span: so a delay line or window gets on and off the tape, a longer array along which it moves.
ghost use Rattle.std.specs.Prelude.{◌≡◌, ◌+◌, ◌≤◌, ◌++◌, length, take};
ghost use Rattle.float.specs.inner.Ending.{ending_in};

// The samples stand at the span's end. Where they are more than its places, nothing moves.
#[tactic(auto, unfolding(crate::specs::inner::Ending::ending_in))]
pub fn put_at_end(span: &mut [f32], src: &[f32])
    ensures { span.new ≡ ending_in src.now span.old }
{
    if span.len() < src.len() {
        return;
    }
    let from = span.len() - src.len();
    span[from..].copy_from_slice(src);
}

// Delay and samples in front of a tape. Where they are more than its places, nothing moves.
#[tactic(auto, unfolding(crate::specs::inner::Ending::ending_in))]
pub fn lay(tape: &mut [f32], delay: &[f32], samples: &[f32])
    ensures { let d = delay.now in
        let v = samples.now in
        length d + length v ≤ length tape.old → take (length d + length v) tape.new ≡ d ++ v }
{
    let long = delay.len();
    let places = tape.len();
    if places < long || places - long < samples.len() {
        return;
    }
    let past = long + samples.len();
    tape[..long].copy_from_slice(delay);
    put_at_end(&mut tape[..past], samples);
}
