ghost use Rattle.std.specs.Prelude.{◌≡◌, ◌≢◌, ◌++◌, ℕ, [], ◌∷◌, IfOk, IfErr, OnOk, OnErr};
ghost use Rattle.turn_lock.specs.declared.entry.Entry.{Entry as Call};
ghost use Rattle.turn_lock.specs.declared.view.Stage.TheVariants.{Idle, Waiting};
ghost use Rattle.turn_lock.specs.History.{BeginsWith, EndsWith, IsAnswered, Legal, entry, calls_by, maker};
ghost use Rattle.turn_lock.specs.Passes.{IsPassOf, IsSamePass};
ghost use Rattle.turn_lock.specs.Slots.{Lies};
ghost use Rattle.turn_lock.specs.Standing.{standing, claim};
ghost use Rattle.turn_lock.specs.Steps.{HasTurn};
ghost use Rattle.turn_lock.specs.Calling.{IsIdle, WaitsForTurn, IsSameSeat, InHand};

use crate::desk::Desk;
use crate::object::Object;
use crate::pass::TurnPass;
use crate::rule::{Chair, Draw, Leave, Look, PassOn};
use crate::turn::Turn;
use dn_base::Memory;
use std::sync::Wait;
use std::time::Duration;
use std::{hint, thread};

// Word 0 counts the tickets drawn, and word 1 the turns passed on.
const DRAWN: usize = 0;

const SERVED: usize = 1;

// How often a caller looks whether the line is empty, before it joins a line in which others stand.
const LOOKS: u32 = 8;

// How often it sleeps after that, as long as two or more stand in the line.
const NAPS: u32 = 5;

// How many looks the next in line takes without a pause, before it lets other threads run between two looks.
const SPINS: u32 = 64;

// After this many looks without the line having moved, a caller with three or more before it sleeps between two looks.
const YIELDS: u32 = 320;

// The length of a first sleep in microseconds, unless the turn is passed on before the caller sleeps.
const NAP: u64 = 20;

// Lets time pass on this thread's processor.
fn spin(pauses: u32) {
    for _pause in 0..pauses {
        hint::spin_loop();
    }
}

impl<O: Object> Turn<O> {
    /// Waits for the turn, makes one call of the object, and passes the turn on. `inside` is called within the turn,
    /// before the object's step.
    ///
    /// # Errors
    /// `Memory` where the object or the history finds no room: no call was made, the pass is as before, the turn was
    /// passed on, and the input comes back.
    pub fn call<R: Wait, F: FnOnce()>(
        &self,
        rt: &R,
        pass: &mut TurnPass<O>,
        input: O::In,
        inside: F,
    ) -> Result<O::Out, (Memory, O::In)>
        requires pass { IsPassOf self.now pass.old }
        requires inside { F.IsAlwaysCallable inside }
        ensures pass { IsSamePass pass.old pass.new }
        // a single thread could have made the history that is then seen, from the object as it began
        ensures legal { OnOk result ((left : O.Content) × Legal O.answer O.next (O.content self.now.opening) pass.new.seen left) }
        // it begins with what was seen before, and ends with this call
        ensures seen { IfOk result (λ output. EndsWith pass.old.seen (entry pass.old.number input output) pass.new.seen) }
        // the call is one more of this pass's
        ensures made { IfOk result (λ output. pass.new.made ≡ pass.old.made ++ entry pass.old.number input output ∷ []) }
        // and the history has those calls of this pass, in their order, and no others
        ensures own { OnOk result (calls_by pass.new.number pass.new.seen ≡ pass.new.made) }
        // the answer is the object's, for the content to which the calls before this one lead
        ensures answer { IfOk result (λ output. IsAnswered O.answer O.next (O.content self.now.opening) (entry pass.old.number input output) pass.new.seen) }
        ensures same { OnErr result (pass.new ≡ pass.old) }
        ensures back { IfErr result (λ e. e.1 ≡ input) }
    {
        let mut desk = self.enter(rt, &mut pass.seat);
        if desk.reserve().is_err() {
            self.leave(&mut pass.seat, desk);
            return Err((Memory, input));
        }
        inside();
        let output = desk.make(pass.number, input);
        pass.seen = desk.history.len() as u64;
        self.pass_on(&mut pass.seat, desk);
        Ok(output)
    }

    // Draws a ticket.
    fn draw(&self, seat: &mut Chair<O>) -> u64
        requires { (seat.old.table_id ≡ self.now.table) × IsIdle self.now.opening seat.old.me }
        ensures { IsSameSeat seat.old seat.new × (seat.new.me ≡ (record seat.old.me.0 { stage = Waiting result }, [])) }
    {
        self.table.shared.fetch_add::<Draw>(seat, DRAWN, 1)
    }

    // Looks at the serving word. Where it is the ticket, the turn has come, and the slot is with the seat.
    fn look(&self, seat: &mut Chair<O>, ticket: u64) -> u64
        requires { (seat.old.table_id ≡ self.now.table) × WaitsForTurn self.now.opening ticket seat.old.me }
        ensures same { IsSameSeat seat.old seat.new }
        ensures turn { result ≡ ticket → HasTurn maker (Lies O.content O.answer O.next) seat.old.me.0 ticket seat.new.me }
        ensures wait { result ≢ ticket → seat.new.me ≡ seat.old.me }
    {
        self.table.shared.load::<Look<O>>(seat, SERVED)
    }

    // How many turns were passed on, and how many stand in the line, the one that has the turn among them.
    fn line(&self) -> (u64, u64) {
        let served = self.table.shared.peek(SERVED);
        let drawn = self.table.shared.peek(DRAWN);
        (served, drawn.wrapping_sub(served))
    }

    // Sleeps, where the turn wasn't passed on since `served` was read.
    fn nap<R: Wait>(&self, rt: &R, served: u64, micros: u64) {
        // the low half of the serving word is what a sleeper waits on
        let low = (served & u64::from(u32::MAX)) as u32;
        let time = Duration::from_micros(micros);
        self.table.shared.park_timeout(rt, SERVED, low, time);
    }

    // Looks for an empty line, and lets time pass between two looks, each time twice as long. So a caller that has just passed the
    // turn on may take it again, with the object still in its processor's cache. After the last look it lets others run once, as
    // the turn's owner may want this processor. Says whether it found the line empty.
    fn finds_none(&self) -> bool {
        let mut pauses = 1_u32;
        for _look in 0..LOOKS {
            let (_served, standing) = self.line();
            if standing == 0 {
                return true;
            }
            spin(pauses);
            pauses = pauses.wrapping_mul(2);
        }
        thread::yield_now();
        false
    }

    // Sleeps, each time twice as long, as long as two or more stand in the line. Where one stands there alone, its call is the
    // only one before this caller's, which so doesn't sleep.
    fn sleep_outside<R: Wait>(&self, rt: &R) {
        let mut micros = NAP;
        for _nap in 0..NAPS {
            let (served, standing) = self.line();
            if standing < 2 {
                break;
            }
            self.nap(rt, served, micros);
            micros = micros.wrapping_mul(2);
        }
    }

    // Lets time pass between two looks of a caller that stands in the line with this many before it. Only the next in line looks
    // again at once, since its turn comes as soon as one call ends; who stands after it lets others run, and who has three or
    // more before it sleeps where the line hasn't moved for long.
    fn pause<R: Wait>(&self, rt: &R, before: u64, served: u64, looks: u32) {
        if before == 1 && looks < SPINS {
            hint::spin_loop();
        } else if before <= 2 || looks < YIELDS {
            thread::yield_now();
        } else {
            self.nap(rt, served, NAP);
        }
    }

    // Waits outside the line, within bounds, then draws a ticket, and stands in the line until its turn has come.
    fn wait<R: Wait>(&self, rt: &R, seat: &mut Chair<O>)
        requires { (seat.old.table_id ≡ self.now.table) × IsIdle self.now.opening seat.old.me }
        ensures same { IsSameSeat seat.old seat.new }
        ensures turn { (ticket : ℕ) × HasTurn maker (Lies O.content O.answer O.next) seat.old.me.0 ticket seat.new.me }
    {
        if !self.finds_none() {
            self.sleep_outside(rt);
        }
        let ticket = self.draw(seat);
        self.stand(rt, seat, ticket);
    }

    // Looks until the turn has come.
    fn stand<R: Wait>(&self, rt: &R, seat: &mut Chair<O>, ticket: u64)
        requires { (seat.old.table_id ≡ self.now.table) × WaitsForTurn self.now.opening ticket seat.old.me }
        ensures same { IsSameSeat seat.old seat.new }
        ensures turn { HasTurn maker (Lies O.content O.answer O.next) seat.old.me.0 ticket seat.new.me }
    {
        let mut passed = ticket;
        let mut looks = 0_u32;
        for _ in rt.forever() {
            let served = self.look(seat, ticket);
            if served == ticket {
                break;
            }
            looks = if served == passed {
                looks.saturating_add(1)
            } else {
                0
            };
            passed = served;
            self.pause(rt, ticket.wrapping_sub(served), served, looks);
        }
    }

    // Waits for the turn, and takes the object out of the slot.
    fn enter<R: Wait>(&self, rt: &R, seat: &mut Chair<O>) -> Desk<O>
        requires { (seat.old.table_id ≡ self.now.table) × IsIdle self.now.opening seat.old.me }
        ensures same { IsSameSeat seat.old seat.new }
        ensures own { (seat.new.me.0.own ≡ seat.old.me.0.own) × (seat.new.me.0.next ≡ seat.old.me.0.next) }
        ensures hand { InHand O.content O.answer O.next self.now.opening seat.new.me [] result }
        ensures seen { BeginsWith result.history.items seat.old.me.0.own.seen }
        ensures mine { calls_by seat.old.me.0.own.number result.history.items ≡ seat.old.me.0.own.mine }
    {
        self.wait(rt, seat);
        match self.table.shared.exchange(seat, 0, None) {
            Some(desk) => desk,
            None => unreachable!(),
        }
    }

    // Puts the object back into the slot.
    fn put(&self, seat: &mut Chair<O>, desk: Desk<O>)
        requires slot { (seat.old.table_id ≡ self.now.table) × (seat.old.me.1 ≡ (0, None) ∷ []) }
        ensures { IsSameSeat seat.old seat.new × (seat.new.me ≡ (seat.old.me.0, (0, Some desk) ∷ [])) }
    {
        let old = self.table.shared.exchange(seat, 0, Some(desk));
        let None = old else { unreachable!() };
    }

    // Puts the object back with one more call, and passes the turn on.
    fn pass_on(&self, seat: &mut Chair<O>, desk: Desk<O>)
        requires table { seat.old.table_id ≡ self.now.table }
        requires call { (call : Call O O.In O.Out) × InHand O.content O.answer O.next self.now.opening seat.old.me (call ∷ []) desk }
        ensures same { IsSameSeat seat.old seat.new }
        ensures me { seat.new.me ≡ (standing self.now.opening (claim seat.old.me.0.own.number desk.history.items (calls_by seat.old.me.0.own.number desk.history.items)) seat.old.me.0.next Idle, []) }
    {
        self.put(seat, desk);
        self.table.shared.fetch_add::<PassOn>(seat, SERVED, 1);
    }

    // Puts the object back as it was, and passes the turn on.
    fn leave(&self, seat: &mut Chair<O>, desk: Desk<O>)
        requires table { seat.old.table_id ≡ self.now.table }
        requires none { InHand O.content O.answer O.next self.now.opening seat.old.me [] desk }
        ensures same { IsSameSeat seat.old seat.new }
        ensures me { seat.new.me ≡ (standing self.now.opening seat.old.me.0.own seat.old.me.0.next Idle, []) }
    {
        self.put(seat, desk);
        self.table.shared.fetch_add::<Leave>(seat, SERVED, 1);
    }
}
