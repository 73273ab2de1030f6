//! The calls of a file, made in a Book and timed: what `cmwq step` does between its reading and its writing.

ghost use Rattle.std.specs.Prelude.{◌≡◌, ◌≤◌, IsTrue, All};
ghost use Rattle.cmwq_model.specs.Prelude.{fits};

use anyhow::{Result, ensure};
use cmwq_base::{Call, CallFile, FromStd, Who, read_calls};
use cmwq_core::{Book, Full};
use std::time::{Duration, Instant};

/// Makes the calls. Answers how many had room.
fn make_calls(book: &mut Book, calls: &[(Who, Call)]) -> u32
    requires { All (λ x. IsTrue (fits book.old.layout x.0 x.1)) calls.now }
    ensures { book.new.layout ≡ book.old.layout }
{
    let mut made = 0u32;
    for &(who, call) in calls {
        match book.step(who, call) {
            Ok(_) => made = made.wrapping_add(1),
            Err(Full) => {}
        }
    }
    made
}

/// Makes the first call once more, by `plan` and `commit`. So `step` isn't the only one here that uses what they share,
/// as it isn't in `cmwq`: alone it would have all of that inlined into its loop, and take a third less.
fn make_another(book: &mut Book, calls: &[(Who, Call)])
    requires { All (λ x. IsTrue (fits book.old.layout x.0 x.1)) calls.now }
{
    if let Some(&(who, call)) = calls.first() {
        if let Ok(plan) = book.plan(who, call) {
            book.commit(&plan);
        }
    }
}

/// Makes the calls of a file in a Book. Answers how many had room, and how long it took, without the making of the
/// Book.
fn time_calls(rt: &HostRuntime, file: &CallFile) -> Result<(u32, Duration)>
    requires room { file.now.shape.room ≤ 1010000 }
    requires fitting { All (λ x. IsTrue (fits file.now.shape x.0 x.1)) file.now.calls.items }
{
    let mut book = Book::new(rt.alloc(), &file.shape, file.shape.counts().room)?;
    let start = Instant::now(rt);
    let made = make_calls(&mut book, &file.calls);
    let end = Instant::now(rt);
    make_another(&mut book, &file.calls);
    drop(book);
    Ok((made, end?.duration_since(start?)))
}

/// Reads a file of calls from the standard input, makes them, and prints how many had room and how long each took.
pub fn time(rt: &HostRuntime) -> Result<()> {
    let file = read_calls(rt.alloc(), &mut FromStd::new(rt.stdin()))?;
    ensure!(
        file.shape.counts().room <= 1_000_000,
        "a room beyond a million"
    );
    let (made, spent) = time_calls(rt, &file)?;
    println!(rt;
        "{made} calls, {} ns a call",
        spent.as_nanos() / u128::from(made.max(1))
    )?;
    Ok(())
}
