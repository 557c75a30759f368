// The call that a benchmark in another language makes to judge a pattern file.
#![tactic(auto)]

ghost use Rattle.std.specs.Prelude.{◌≡◌, ◌<◌, ◌≤◌, ◌++◌, length, drop};
ghost use Rattle.judging.specs.Judgement.{judgement_text};

use judging::judgement;
use std::alloc::Global;

// Puts the text that is printed of a pattern file at the front of the buffer and answers its length, or answers 0 and
// leaves the buffer as it was, if there is no memory left or the buffer is too short.
// Stays: the C interface has no Result and no Option, so a length of 0 stands for no text.
#[unsafe(no_mangle)]
pub extern "C" fn kazhulwi_judge(heap: Global, file: &[u8], text: &mut [u8]) -> usize
    ensures same { result ≡ 0 → text.new ≡ text.old }
    ensures len { 0 < result → result ≡ length (judgement_text file.now) }
    ensures after { 0 < result → text.new ≡ judgement_text file.now ++ drop result text.old }
{
    let Ok(judged) = judgement(heap, file) else {
        return 0;
    };
    let bytes = judged.as_bytes();
    if bytes.len() > text.len() {
        return 0;
    }
    put(text, bytes);
    bytes.len()
}

// Copies the bytes to the front of the target.
fn put(target: &mut [u8], bytes: &[u8])
    requires { length bytes.now ≤ length target.old }
    ensures { target.new ≡ bytes.now ++ drop (length bytes.now) target.old }
{
    target[0..bytes.len()].copy_from_slice(bytes);
}
