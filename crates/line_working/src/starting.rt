//! Two pieces of work at once, where it is known before either begins whether a thread could be started.

ghost use Rattle.std.specs.Prelude.{◌≡◌};

use crate::crew::Crew;
use std::snapshot::Snapshot;
use std::sync::Wait;
use std::thread;
use std::thread::{Promise, Threads};

// What a thread does, and what is known of its result. Nothing is known of what a thread of a scope writes through a
// closure, so it is given this by value, and gives back what it was lent.
trait Task {
    type Output;

    ghost can_run: { Self → Type 0 };

    ghost run_gives: { Self → Self.Output → Type 0 };

    fn run(self) -> Self::Output
        requires { can_run self }
        ensures { run_gives self result };
}

// A closure that is lent, and comes back with its answer.
#[derive(Drop)]
struct Lent<'a, F> {
    f: &'a mut F,
}

impl<'a, F: FnMut() -> A, A> Task for Lent<'a, F> {
    type Output = (&'a mut F, A);

    ghost can_run = { λ t. F.pre t.f.now };

    ghost run_gives = { λ t r. (r.0.ghost_name ≡ t.f.ghost_name) × F.step t.f.now r.1 r.0.now };

    fn run(self) -> (&'a mut F, A) {
        let Lent { f } = self;
        let a = f();
        (f, a)
    }
}

// The promise that a thread gives what its task does.
#[derive(Drop)]
struct Gives<S>(Snapshot<S>);

impl<S: Task<Output = A>, A> Promise<A> for Gives<S> {
    ghost kept_by = { λ p r. S.run_gives p.0.value r };
}

// Runs one man's task on a new thread, and the task of the others on this one. Where no thread can be started the crew
// is told first, and his task is run when that of the others is done.
fn run_both<
    'e,
    R: Threads + Wait,
    S: Task<Output = A> + Send + Drop + 'e,
    T: Task<Output = B> + Drop,
    A: Send + Drop + 'e,
    B,
>(rt: &R, crew: &Crew, his: S, others: T) -> (A, B)
    requires { S.can_run his × T.can_run others }
    ensures { S.run_gives his result.0 × T.run_gives others result.1 }
{
    thread::scope(
        thread::scope_env::<'e>(),
        rt,
        move |scope| -> (A, B)
            requires { S.can_run his × T.can_run others }
            ensures { S.run_gives his result.0 × T.run_gives others result.1 }
        {
            let promise = Gives(Snapshot::of(&his));
            let on_thread = move || -> A
                requires { S.can_run his }
                ensures { S.run_gives his result }
            { his.run() };
            match scope.spawn_with(promise, on_thread) {
                Ok(handle) => {
                    let b = others.run();
                    (handle.join(rt), b)
                }
                Err(refused) => {
                    crew.put_off(rt);
                    let b = others.run();
                    crew.take_on();
                    ((refused.value)(), b)
                }
            }
        },
    )
}

/// Calls `his`, the work of one man of a crew, on a new thread, and `others`, that of others of them, on this one. It
/// returns when both are done.
///
/// Where no thread can be started the man is put off before `others` is called, and `his` is called after it, when he
/// has been taken on.
pub fn work_both<R: Threads + Wait, F: FnMut() -> A + Send, G: FnMut() -> B, A: Send + Drop, B>(
    rt: &R,
    crew: &Crew,
    his: &mut F,
    others: &mut G,
) -> (A, B)
    requires { F.pre his.old × G.pre others.old }
    ensures { F.step his.old result.0 his.new × G.step others.old result.1 others.new }
{
    let ((f, a), (g, b)) = run_both(rt, crew, Lent { f: his }, Lent { f: others });
    give_back(f);
    give_back(g);
    (a, b)
}

// Does nothing: where a reference that came back is used, it is known to be the one that was lent.
fn give_back<T>(x: &mut T)
    ensures { x.new ≡ x.old }
{}
