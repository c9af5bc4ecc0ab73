// Values of maps and truth of sets at what is known.

ghost use Rattle.std.specs.Prelude.{◌≡◌, ◌<◌, ◌≤◌, ℕ, ◌+◌, length, vec_capacity, take, drop};
ghost use Rattle.affine_expr.specs.Bounded.{AllEvaluable};
ghost use Rattle.direct_meaning.specs.Static.{numbers, results_of, least, greatest, picked, lower_of, upper_of};
ghost use Rattle.direct_meaning.specs.Static.{holds_at};
ghost use Rattle.affine_ast.specs.declared.types.Pick.TheVariants.{Apply};
ghost use Rattle.valid_laws.specs.Safe.{SafeAccess, SafeValue, SafeBound, SafeCondition};
ghost use Rattle.walk_program.specs.Numbered.{Operands, LimitFits};
ghost use Rattle.walk_program.specs.Reading.{names_at, bound_of};
ghost use Rattle.walk_actions.specs.Looked.{env_of};
ghost use Rattle.walk_actions.specs.Values.{value_in, use_of, HasValue, HasRoom};

use crate::environment::Environment;
use affine_ast::Pick;
use affine_expr::{Expr, Set};
use walk_program::{Limit, Subscripts};

impl<'p> Environment<'p> {
    /// The value of an expression over the operands of a map, whose numbers are written down in the room.
    #[tactic(auto, using(crate::proofs::Values::evaluations))]
    fn evaluated(&self, expr: &Expr, at: &Subscripts, room: &mut Vec<i64>) -> i64
        requires room { HasRoom self.now (vec_capacity room.old) at.now }
        requires safe { HasValue (env_of self.now) (use_of self.now at.now) expr.now }
        ensures value { result ≡ value_in (env_of self.now) (use_of self.now at.now) expr.now }
        ensures capacity { vec_capacity room.new ≡ vec_capacity room.old }
    {
        self.numbers(at.operands.as_slice(), room);
        let dims = at.map.dims as usize;
        expr.eval(&room[..dims], &room[dims..]) as i64
    }

    /// The value of an expression over the operands of a map: of a lone dimension straight from the table.
    pub fn value(&self, expr: &Expr, at: &Subscripts, room: &mut Vec<i64>) -> i64
        requires room { HasRoom self.now (vec_capacity room.old) at.now }
        requires safe { HasValue (env_of self.now) (use_of self.now at.now) expr.now }
        ensures value { result ≡ value_in (env_of self.now) (use_of self.now at.now) expr.now }
        ensures capacity { vec_capacity room.new ≡ vec_capacity room.old }
    {
        if let Expr::Dim(place) = expr {
            return self.number(at.operands.as_slice()[*place as usize]);
        }
        self.evaluated(expr, at, room)
    }

    /// The least value of a map's results, and 0 where there is none.
    fn least(&self, at: &Subscripts, room: &mut Vec<i64>) -> i64
        requires operands { Operands (length self.now.names) (vec_capacity room.old) at.now.operands }
        requires safe { SafeAccess (env_of self.now) (use_of self.now at.now) }
        ensures value { result ≡ least (results_of (env_of self.now) (use_of self.now at.now)) }
        ensures capacity { vec_capacity room.new ≡ vec_capacity room.old }
    {
        let results = at.map.results.as_slice();
        if results.is_empty() {
            return 0;
        }
        let mut least = self.value(&results[0], at, room);
        let rest = &results[1..];
        for expr in rest {
            least = least.min(self.value(expr, at, room));
        }
        least
    }

    /// The greatest value of a map's results, and 0 where there is none.
    fn greatest(&self, at: &Subscripts, room: &mut Vec<i64>) -> i64
        requires operands { Operands (length self.now.names) (vec_capacity room.old) at.now.operands }
        requires safe { SafeAccess (env_of self.now) (use_of self.now at.now) }
        ensures value { result ≡ greatest (results_of (env_of self.now) (use_of self.now at.now)) }
        ensures capacity { vec_capacity room.new ≡ vec_capacity room.old }
    {
        let results = at.map.results.as_slice();
        if results.is_empty() {
            return 0;
        }
        let mut greatest = self.value(&results[0], at, room);
        let rest = &results[1..];
        for expr in rest {
            greatest = greatest.max(self.value(expr, at, room));
        }
        greatest
    }

    /// The value of `affine.apply`, and 0 where its map has no result.
    fn first(&self, at: &Subscripts, room: &mut Vec<i64>) -> i64
        requires operands { Operands (length self.now.names) (vec_capacity room.old) at.now.operands }
        requires safe { SafeAccess (env_of self.now) (use_of self.now at.now) }
        ensures value { result ≡ picked Apply (results_of (env_of self.now) (use_of self.now at.now)) }
        ensures capacity { vec_capacity room.new ≡ vec_capacity room.old }
    {
        let results = at.map.results.as_slice();
        if results.is_empty() {
            return 0;
        }
        self.value(&results[0], at, room)
    }

    /// The value of `affine.apply`, `affine.min` or `affine.max`, and 0 where the map has no result.
    pub fn picked(&self, pick: Pick, at: &Subscripts, room: &mut Vec<i64>) -> i64
        requires operands { Operands (length self.now.names) (vec_capacity room.old) at.now.operands }
        requires safe { SafeAccess (env_of self.now) (use_of self.now at.now) }
        ensures value { result ≡ picked pick (results_of (env_of self.now) (use_of self.now at.now)) }
        ensures capacity { vec_capacity room.new ≡ vec_capacity room.old }
    {
        match pick {
            Pick::Apply => self.first(at, room),
            Pick::Min => self.least(at, room),
            Pick::Max => self.greatest(at, room),
        }
    }

    /// The first turn of a loop with this lower bound, where it has a turn.
    #[tactic(auto, unfolding(direct_meaning::specs::Static::lower_of))]
    pub fn lower(&self, limit: &Limit, room: &mut Vec<i64>) -> i64
        requires limit { LimitFits (length self.now.names) (vec_capacity room.old) limit.now }
        requires safe { SafeBound (env_of self.now) (bound_of self.now.names limit.now) }
        ensures value { result ≡ lower_of (env_of self.now) (bound_of self.now.names limit.now) }
        ensures capacity { vec_capacity room.new ≡ vec_capacity room.old }
    {
        match limit {
            Limit::Int(value) => *value,
            Limit::Value(name) => self.number(*name),
            Limit::Map(at) => self.greatest(at, room),
        }
    }

    /// The number that every turn of a loop with this upper bound is less than.
    #[tactic(auto, unfolding(direct_meaning::specs::Static::upper_of))]
    pub fn upper(&self, limit: &Limit, room: &mut Vec<i64>) -> i64
        requires limit { LimitFits (length self.now.names) (vec_capacity room.old) limit.now }
        requires safe { SafeBound (env_of self.now) (bound_of self.now.names limit.now) }
        ensures value { result ≡ upper_of (env_of self.now) (bound_of self.now.names limit.now) }
        ensures capacity { vec_capacity room.new ≡ vec_capacity room.old }
    {
        match limit {
            Limit::Int(value) => *value,
            Limit::Value(name) => self.number(*name),
            Limit::Map(at) => self.least(at, room),
        }
    }

    /// Whether a condition is true.
    #[tactic(auto, unfolding(direct_meaning::specs::Static::holds_at), using(crate::proofs::Values::set_dims))]
    pub fn holds(&self, set: &Set, operands: &[u32], room: &mut Vec<i64>) -> bool
        requires operands { Operands (length self.now.names) (vec_capacity room.old) operands.now }
        requires safe { SafeCondition (env_of self.now) set.now (names_at self.now.names operands.now) }
        ensures value { result ≡ holds_at (env_of self.now) set.now (names_at self.now.names operands.now) }
        ensures capacity { vec_capacity room.new ≡ vec_capacity room.old }
    {
        self.numbers(operands, room);
        let dims = set.dims as usize;
        set.holds(&room[..dims], &room[dims..])
    }
}
