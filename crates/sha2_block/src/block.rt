// The block step: the rounds over a rolling window of sixteen schedule words.
ghost use Rattle.std.specs.Prelude.{◌≡◌, ◌+◌, ◌<◌, ◌≤◌, slice_index};
ghost use Rattle.sha2_block.specs.Block.{added, block_step, round as one_round};
ghost use Rattle.sha2_block.specs.Schedule.{ScheduleStands};
ghost use Rattle.sha2_block.specs.Window.{LeadsTo, eight, shifted, sixteen};

use crate::word::Word;
use constants::round_constants;

// The eight words of a state, by name: a struct of a type parameter has no array of it.
#[derive(Clone, Copy)]
pub struct State<W> {
    pub a: W,
    pub b: W,
    pub c: W,
    pub d: W,
    pub e: W,
    pub f: W,
    pub g: W,
    pub h: W,
}

// Sixteen words: a block's, or those of the schedule that are kept.
#[derive(Clone, Copy)]
pub struct Words<W> {
    pub w0: W,
    pub w1: W,
    pub w2: W,
    pub w3: W,
    pub w4: W,
    pub w5: W,
    pub w6: W,
    pub w7: W,
    pub w8: W,
    pub w9: W,
    pub w10: W,
    pub w11: W,
    pub w12: W,
    pub w13: W,
    pub w14: W,
    pub w15: W,
}

// The working words, and the schedule words from the next round's on.
#[derive(Clone, Copy)]
struct Work<W> {
    state: State<W>,
    window: Words<W>,
}

// That a round's number is below 80 is said here and of each step: a type for it would be made and opened again at each.
fn constant<W: Word>(t: usize) -> W
    requires { t < 80 }
    ensures { W.value result ≡ slice_index W.variant.constants t }
{
    W::upper(round_constants()[t])
}

#[tactic(auto, unfolding(crate::specs::Block::round))]
fn round<W: Word>(s: State<W>, k: W, w: W) -> State<W>
    ensures { eight W.value result ≡ one_round W.variant (W.value k) (W.value w) (eight W.value s) }
{
    let t1 = s
        .h
        .plus(s.e.big_sigma1())
        .plus(s.e.choice(s.f, s.g))
        .plus(k)
        .plus(w);
    let t2 = s.a.big_sigma0().plus(s.a.majority(s.b, s.c));
    State {
        a: t1.plus(t2),
        b: s.a,
        c: s.b,
        d: s.c,
        e: s.d.plus(t1),
        f: s.e,
        g: s.f,
        h: s.g,
    }
}

// The window one word on, by name as `Words` has them.
fn shift<W: Word>(w: Words<W>) -> Words<W>
    ensures { sixteen W.value result ≡ shifted W.variant (sixteen W.value w) }
{
    Words {
        w0: w.w1,
        w1: w.w2,
        w2: w.w3,
        w3: w.w4,
        w4: w.w5,
        w5: w.w6,
        w6: w.w7,
        w7: w.w8,
        w8: w.w9,
        w9: w.w10,
        w10: w.w11,
        w11: w.w12,
        w12: w.w13,
        w13: w.w14,
        w14: w.w15,
        w15: w
            .w14
            .small_sigma1()
            .plus(w.w9)
            .plus(w.w1.small_sigma0())
            .plus(w.w0),
    }
}

// Round `t` + `I`. The const parameters make each of a turn's steps a function of its own, so that each is inlined.
#[tactic(auto, using(crate::proofs::Rounds::one_step))]
fn step<W: Word, const I: usize, const LAST: bool>(work: Work<W>, t: usize) -> Work<W>
    requires { t + I < 80 }
    ensures { LeadsTo W.variant (t + I) 1 (sixteen W.value work.window) (eight W.value work.state) (sixteen W.value result.window) (eight W.value result.state) }
{
    let Work { state, window } = work;
    Work {
        state: round(state, constant(t + I), window.w0),
        window: shift(window),
    }
}

// Sixteen rounds from round `t` on, written out: a loop over them took nearly twice as long. Of the last turn no
// window is used, and the compiler leaves it out.
fn turn<W: Word, const LAST: bool>(work: Work<W>, t: usize) -> Work<W>
    requires { t + 16 ≤ 80 }
    ensures { LeadsTo W.variant t 16 (sixteen W.value work.window) (eight W.value work.state) (sixteen W.value result.window) (eight W.value result.state) }
{
    let work = step::<W, 0, LAST>(work, t);
    let work = step::<W, 1, LAST>(work, t);
    let work = step::<W, 2, LAST>(work, t);
    let work = step::<W, 3, LAST>(work, t);
    let work = step::<W, 4, LAST>(work, t);
    let work = step::<W, 5, LAST>(work, t);
    let work = step::<W, 6, LAST>(work, t);
    let work = step::<W, 7, LAST>(work, t);
    let work = step::<W, 8, LAST>(work, t);
    let work = step::<W, 9, LAST>(work, t);
    let work = step::<W, 10, LAST>(work, t);
    let work = step::<W, 11, LAST>(work, t);
    let work = step::<W, 12, LAST>(work, t);
    let work = step::<W, 13, LAST>(work, t);
    let work = step::<W, 14, LAST>(work, t);
    let work = step::<W, 15, LAST>(work, t);
    work
}

// Two states, added word by word, by name as `State` has them.
#[tactic(auto, unfolding(crate::specs::Block::added))]
fn sum<W: Word>(s: State<W>, t: State<W>) -> State<W>
    ensures { eight W.value result ≡ added W.variant (eight W.value s) (eight W.value t) }
{
    State {
        a: s.a.plus(t.a),
        b: s.b.plus(t.b),
        c: s.c.plus(t.c),
        d: s.d.plus(t.d),
        e: s.e.plus(t.e),
        f: s.f.plus(t.f),
        g: s.g.plus(t.g),
        h: s.h.plus(t.h),
    }
}

// The state after a block of sixteen words.
pub fn compress<W: Word>(state: State<W>, block: Words<W>) -> State<W>
    ensures { eight W.value result ≡ block_step W.variant (eight W.value state) (sixteen W.value block) }
{
    let last = W::rounds() - 16;
    let mut work = Work {
        state,
        window: block,
    };
    for t in (0..last).step_by(16) {
        work = turn::<W, false>(work, t);
    }
    let done = turn::<W, true>(work, last);
    sum(state, done.state)
}

// The schedule, word by word, and the window that is kept of it.
pub fn schedule_stands()
    ensures { ScheduleStands }
{}
