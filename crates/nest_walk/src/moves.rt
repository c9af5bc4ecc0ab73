// The moves of a walk: back to what is open below, into loops and conditions, and over plain statements.

ghost use Rattle.std.specs.Prelude.{◌≡◌, ◌+◌, ◌<◌, ◌≤◌, ℕ, Bool, List, [], ◌∷◌, length, vec_capacity, Option, None};
ghost use Rattle.std.specs.Prelude.{Some, true, false, pos, ◌+ℤ◌, ◌<ℤ◌, ◌≤ℤ◌};
ghost use Rattle.affine_ast.specs.declared.name.Name.{Name as TheName};
ghost use Rattle.direct_meaning.specs.Turns.{turns};
ghost use Rattle.direct_meaning.specs.Actions.{action_of};
ghost use Rattle.valid_laws.specs.Safe.{CountsFit};
ghost use Rattle.walk_program.specs.Names.{name_at};
ghost use Rattle.walk_program.specs.Reading.{plain_of};
ghost use Rattle.walk_program.specs.Tree.{tree, Loop, Branch, Does};
ghost use Rattle.walk_actions.specs.Changed.{changed, ChangesIn};
ghost use Rattle.walk_actions.specs.Looked.{env_of, with_known, with_home, homes_meant};
ghost use Rattle.walk_actions.specs.Meant.{meant, NamesIn};
ghost use Rattle.nest_walk.specs.declared.frame.Frame.TheVariants as on;
ghost use Rattle.nest_walk.specs.Jobs.{at_numbers, actions_left};
ghost use Rattle.nest_walk.specs.Ready.{IsReady, Moved, Opened, Acted, Steps};
ghost use Rattle.nest_walk.specs.Advances.{Advances};

use crate::frame::Frame;
use crate::position::Position;
use affine_expr::Set;
use walk_actions::{Action, Change, Home};
use walk_program::{Counts, Form, Limit, Plain, Statement};

/// Nothing is allocated.
const NONE: Counts = Counts { fasts: 0, tags: 0 };

/// The turn after one, or the end of the loop.
#[tactic(auto, using(crate::proofs::Steps::laters))]
fn later(at: i64, upper: i64, step: i64) -> i64
    requires less { at <ℤ upper }
    requires step { pos 0 <ℤ step }
    ensures turns { turns at upper step ≡ at ∷ turns result upper step }
    ensures later { at ≤ℤ result }
{
    match at.checked_add(step) {
        Some(next) => next,
        None => upper,
    }
}

impl<'p> Position<'p> {
    /// The statements behind a loop or a condition.
    fn pass(&mut self, statements: &'p [Statement], passed: Counts)
        requires ready { IsReady (record self.old { frames = on.Rest statements passed ∷ self.old.frames }) }
        requires empty { self.old.rest ≡ [] }
        ensures { Moved (record self.old { frames = on.Rest statements.entry passed ∷ self.old.frames }) self.new }
    {
        let before = self.counts();
        self.count(before.fasts + passed.fasts, before.tags + passed.tags);
        self.take(statements);
    }

    /// The next turn of a loop whose frame was taken, or its end.
    fn turn(
        &mut self,
        var: u32,
        before: Option<i64>,
        at: i64,
        upper: i64,
        step: i64,
        start: Counts,
        inside: Counts,
        body: &'p [Statement],
    )
        requires ready { IsReady (record self.old {
          frames = on.Turns var before at upper step start inside body ∷ self.old.frames;
        }) }
        requires empty { self.old.rest ≡ [] }
        ensures { Moved (record self.old {
          frames = on.Turns var before at upper step start inside body.entry
              ∷ self.old.frames;
        }) self.new }
    {
        if at < upper {
            let next = later(at, upper, step);
            self.push(Frame::Turns {
                var,
                before,
                at: next,
                upper,
                step,
                start,
                inside,
                body,
            });
            self.know(var, Some(at));
            self.count(start.fasts, start.tags);
            self.take(body);
        } else {
            self.know(var, before);
            self.count(start.fasts + inside.fasts, start.tags + inside.tags);
        }
    }

    /// A name gets back the number that it had.
    fn know_again(&mut self, name: u32, before: Option<i64>)
        requires ready { IsReady (record self.old { frames = on.Known name before ∷ self.old.frames }) }
        requires empty { self.old.rest ≡ [] }
        ensures { Moved (record self.old { frames = on.Known name before ∷ self.old.frames }) self.new }
    {
        self.know(name, before);
    }

    /// A name stands again for what it stood for.
    fn stand_again(&mut self, name: u32, before: Option<Home>)
        requires ready { IsReady (record self.old { frames = on.Memref name before ∷ self.old.frames }) }
        requires empty { self.old.rest ≡ [] }
        ensures { Moved (record self.old { frames = on.Memref name before ∷ self.old.frames }) self.new }
    {
        self.stand(name, before);
    }

    /// Goes on with a frame that was taken.
    fn resume(&mut self, frame: Frame<'p>)
        requires ready { IsReady (record self.old { frames = frame ∷ self.old.frames }) }
        requires empty { self.old.rest ≡ [] }
        ensures { Moved (record self.old { frames = frame.entry ∷ self.old.frames }) self.new }
    {
        match frame {
            Frame::Rest { statements, passed } => self.pass(statements, passed),
            Frame::Known { name, before } => self.know_again(name, before),
            Frame::Memref { name, before } => self.stand_again(name, before),
            Frame::Turns {
                var,
                before,
                at,
                upper,
                step,
                start,
                inside,
                body,
            } => self.turn(var, before, at, upper, step, start, inside, body),
        }
    }

    /// Goes on with what is open below, where no statement is in hand. False where nothing is.
    #[tactic(auto, using(crate::proofs::Steps::backs))]
    pub fn back(&mut self) -> bool
        requires ready { IsReady self.old }
        requires empty { self.old.rest ≡ [] }
        ensures moved { result ≡ true → Moved self.old self.new }
        ensures ended { result ≡ false → (actions_left self.old ≡ []) × (self.new ≡ self.old) }
    {
        match self.pop() {
            None => false,
            Some(frame) => {
                self.resume(frame);
                true
            }
        }
    }

    /// Goes into a loop, before its first turn.
    pub fn start_loop(
        &mut self,
        var: u32,
        lower: &Limit,
        upper: &Limit,
        step: i64,
        inside: Counts,
        body: &'p [Statement],
        rest: &'p [Statement],
    )
        requires ready { IsReady self.old }
        requires there { (line : ℕ) × (tree self.old.rest
            ≡ Loop line var lower.now upper.now step inside (tree body.now) (tree rest.now)) }
        ensures { Moved self.old self.new }
    {
        let at = self.lower(lower);
        let upper = self.upper(upper);
        let before = self.known(var);
        let start = self.counts();
        self.push(Frame::Rest {
            statements: rest,
            passed: NONE,
        });
        self.push(Frame::Turns {
            var,
            before,
            at,
            upper,
            step,
            start,
            inside,
            body,
        });
        self.take(&rest[..0]);
    }

    /// Goes into the region of a condition that holds, or into the other one.
    pub fn start_condition(
        &mut self,
        set: &Set,
        operands: &[u32],
        first: &'p [Statement],
        first_inside: Counts,
        other: &'p [Statement],
        other_inside: Counts,
        rest: &'p [Statement],
    )
        requires ready { IsReady self.old }
        requires there { (line : ℕ) × (has : Bool) × (tree self.old.rest
            ≡ Branch line set.now operands.now (tree first.now) first_inside has (tree other.now) other_inside
            (tree rest.now)) }
        ensures { Moved self.old self.new }
    {
        if self.holds(set, operands) {
            self.push(Frame::Rest {
                statements: rest,
                passed: other_inside,
            });
            self.take(first);
        } else {
            let before = self.counts();
            self.count(
                before.fasts + first_inside.fasts,
                before.tags + first_inside.tags,
            );
            self.push(Frame::Rest {
                statements: rest,
                passed: NONE,
            });
            self.take(other);
        }
    }

    /// Gives a name a number, or none, and puts down what it had, where it had one or has one now.
    fn bind(&mut self, name: u32, number: Option<i64>)
        requires ready { IsReady self.old }
        requires name { name < length self.old.bindings.names }
        requires room { length self.old.frames + 1 ≤ self.old.capacity }
        ensures { Opened self.old self.new (with_known (name_at self.old.bindings.names name) number
            (env_of self.old.bindings)) }
    {
        let before = self.know(name, number);
        if before.is_none() {
            if number.is_none() {
                return;
            }
        }
        self.push(Frame::Known { name, before });
    }

    /// Lets a name stand for an allocation, puts down what it stood for, and counts what is allocated then.
    fn place(&mut self, name: u32, home: Home, fasts: u32, tags: u32)
        requires ready { IsReady self.old }
        requires name { name < length self.old.bindings.names }
        requires room { length self.old.frames + 1 ≤ self.old.capacity }
        ensures { Opened self.old self.new (at_numbers fasts tags
            (with_home (name_at self.old.bindings.names name) (homes_meant (Some home)) (env_of self.old.bindings))) }
    {
        let before = self.stand(name, Some(home));
        self.count(fasts, tags);
        self.push(Frame::Memref { name, before });
    }

    /// Makes known what a plain statement does.
    fn change(&mut self, change: Change)
        requires ready { IsReady self.old }
        requires inside { ChangesIn (length self.old.bindings.names) change }
        requires fits { CountsFit (changed self.old.bindings.names change (env_of self.old.bindings)) }
        requires room { length self.old.frames + 1 ≤ self.old.capacity }
        ensures { Opened self.old self.new (changed self.old.bindings.names change (env_of self.old.bindings)) }
    {
        let Counts { fasts, tags } = self.counts();
        match change {
            Change::Nothing => {}
            Change::Known { name, number } => self.bind(name, number),
            Change::Fast { name } => self.place(name, Home::Fast(fasts), fasts + 1, tags),
            Change::Tags { name, count } => self.place(name, Home::Tags(tags), fasts, tags + count),
        }
    }

    /// Does a plain statement.
    pub fn act(&mut self, plain: &'p Plain, rest: &'p [Statement]) -> Action<'p>
        requires ready { IsReady self.old }
        requires there { (line : ℕ) × (tree self.old.rest ≡ Does line plain.now (tree rest.now)) }
        ensures acted { Acted self.old self.new (meant self.old.bindings.names self.new.subscripts result) }
        ensures inside { NamesIn (length self.old.bindings.names) self.new.subscripts result }
    {
        let action = self.action(plain);
        let change = self.change_of(plain);
        self.change(change);
        self.take(rest);
        action
    }

    /// Starts the first statement in hand.
    fn start(&mut self, first: &'p Statement, rest: &'p [Statement]) -> Option<Action<'p>>
        requires ready { IsReady self.old }
        requires there { self.old.rest ≡ first.now ∷ rest.now }
        ensures { Steps result self.old self.new }
    {
        match &first.form {
            Form::For {
                var,
                lower,
                upper,
                step,
                inside,
                body,
            } => {
                self.start_loop(*var, lower, upper, *step, *inside, body.as_slice(), rest);
                None
            }
            Form::If {
                set,
                operands,
                first,
                first_inside,
                other,
                other_inside,
            } => {
                let other = match other {
                    Some(other) => other.as_slice(),
                    None => &rest[..0],
                };
                self.start_condition(
                    set,
                    operands.as_slice(),
                    first.as_slice(),
                    *first_inside,
                    other,
                    *other_inside,
                    rest,
                );
                None
            }
            Form::Plain(plain) => Some(self.act(plain, rest)),
        }
    }

    /// Goes to the next action. Nothing where no action is left.
    pub fn advance(&mut self) -> Option<Action<'p>>
        requires { IsReady self.old }
        ensures { Advances result self.old self.new }
    {
        'moves: loop {
            let statements = self.rest();
            if statements.is_empty() {
                if !self.back() {
                    return None;
                }
            } else if let Some(action) = self.start(&statements[0], &statements[1..]) {
                return Some(action);
            }
        }
    }
}
