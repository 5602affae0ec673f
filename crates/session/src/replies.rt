// How answers are printed.
ghost use Rattle.std.specs.Prelude.{◌≡◌, ◌∷◌, [], ◌++◌, ◌+◌, ◌<◌, ◌≤◌, false, length, decimal};
ghost use Rattle.std.specs.Fmt.{digit_glyph};
ghost use Rattle.arrayvec.specs.ArrayVec.{array_vec_len};
ghost use Rattle.session.specs.Answers.{answer_text, low_digits, refusal_line, reply_text};
ghost use Rattle.session.specs.Replies.{HasRoom, most_bytes};

use crate::answer::Answer;
use crate::fault::LineFault;
use arrayvec::ArrayVec;
use refusal::{Fault, Refusal};

// The most bytes of a reply: `no`, a number of three digits, a place of twenty, and the newline.
pub const LONGEST_REPLY: usize = 28;

const MOST_BYTES: usize = 8192;

// Replies as they are printed, one behind the other. They are spelled here, and not through a formatter, which takes longer than most calls.
pub type Replies = ArrayVec<u8, MOST_BYTES>;

// Adds the reply to a line, its answer or why it is refused, and a newline. It is inlined, so that the answer stays in registers.
#[inline(always)]
pub fn push_reply(replies: &mut Replies, answer: Result<Answer, LineFault>)
    requires { HasRoom replies.old }
    ensures { replies.new.items ≡ replies.old.items ++ (reply_text answer ++ 10 ∷ []) }
{
    match answer {
        Ok(answer) => push_answer(replies, answer),
        Err(fault) => push_refusal(replies, fault.refusal()),
    }
    replies.push(b'\n');
}

// What a granted command prints.
#[tactic(auto, using(crate::proofs::Spelling::word_digits))]
fn push_answer(replies: &mut Replies, answer: Answer)
    requires { HasRoom replies.old }
    ensures text { replies.new.items ≡ replies.old.items ++ answer_text answer }
    ensures short { array_vec_len replies.new < most_bytes }
{
    replies.push(b'o');
    replies.push(b'k');
    match answer {
        Answer::Done => (),
        Answer::Number(number) => {
            replies.push(b' ');
            push_decimal(replies, u64::from(number));
        }
        Answer::Word(word) => {
            replies.push(b' ');
            push_digits(replies, word, 8);
        }
    }
}

// A refusal as the console prints it: its number, and its place where it has one.
#[tactic(auto, using(crate::proofs::Spelling::byte_digits, crate::proofs::Spelling::place_digits))]
fn push_refusal(replies: &mut Replies, refusal: Refusal)
    requires { HasRoom replies.old }
    ensures text { replies.new.items ≡ replies.old.items ++ refusal_line refusal }
    ensures short { array_vec_len replies.new < most_bytes }
{
    replies.push(b'n');
    replies.push(b'o');
    replies.push(b' ');
    push_decimal(replies, u64::from(refusal.number));
    if let Some(place) = refusal.place {
        replies.push(b' ');
        push_decimal(replies, place as u64);
    }
}

// Writes a number as `{}` prints it.
#[tactic(auto, using(crate::proofs::Spelling::only_digit, crate::proofs::Spelling::one_digit, crate::proofs::Spelling::more_digits, crate::proofs::Spelling::last_digit))]
fn push_decimal(replies: &mut Replies, number: u64)
    requires { array_vec_len replies.old + length (decimal number) ≤ most_bytes }
    ensures items { replies.new.items ≡ replies.old.items ++ decimal number }
    ensures len { array_vec_len replies.new ≡ array_vec_len replies.old + length (decimal number) }
{
    if number < 10 {
        replies.push(b'0' + number as u8);
        return;
    }
    push_decimal(replies, number / 10);
    replies.push(b'0' + (number % 10) as u8);
}

// Writes the last hexadecimal digits of a word, so many of them.
fn push_digits(replies: &mut Replies, word: u32, count: usize)
    requires { array_vec_len replies.old + count ≤ most_bytes }
    ensures items { replies.new.items ≡ replies.old.items ++ low_digits count word }
    ensures len { array_vec_len replies.new ≡ array_vec_len replies.old + count }
{
    if count > 0 {
        push_digits(replies, word / 16, count - 1);
        replies.push(glyph(word % 16));
    }
}

// A hexadecimal digit in small letters.
fn glyph(digit: u32) -> u8
    requires { digit < 16 }
    ensures { result ≡ digit_glyph false digit }
{
    let digit = digit as u8;
    if digit < 10 {
        b'0' + digit
    } else {
        b'a' - 10 + digit
    }
}
