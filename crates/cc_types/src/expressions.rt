//! STAND-IN, to be replaced by the file of the same name of the cycle of expressions: each function here answers that memory is out,
//! so that no expression is judged.

ghost use Rattle.std.specs.Prelude.{◌≡◌, IfOk, OnOk};
ghost use Rattle.cc_faults.specs.Expressions as phrase;
ghost use Rattle.cc_faults.specs.Faults.{noted};
ghost use Rattle.cc_faults.specs.Judged.{answer, faults};
ghost use Rattle.cc_types.specs.Parts as part;

use crate::scene::Scene;
use cc_base::Memory;
use cc_faults::{Answer, Found, Least, Phrase};
use cc_typed::Expression;

impl Scene<'_> {
    /// STAND-IN. What is found of an expression.
    pub fn expression(&self, least: &mut Least, e: &Phrase) -> Result<Answer<Found>, Memory>
        ensures value { IfOk result (λ r. r ≡ answer (phrase.expression self.now.text self.now.scope self.now.around e.now)) }
        ensures noted { OnOk result (least.new ≡ noted least.old (faults (phrase.expression self.now.text self.now.scope self.now.around e.now))) }
    {
        let _ = least;
        let _ = e;
        Err(Memory)
    }

    /// STAND-IN. An arithmetic operand or argument, a condition, a duration or an index.
    pub fn operand(&self, least: &mut Least, e: &Phrase) -> Result<Answer<Expression>, Memory>
        ensures value { IfOk result (λ r. r ≡ answer (part.operand self.now.text self.now.scope self.now.around e.now)) }
        ensures noted { OnOk result (least.new ≡ noted least.old (faults (part.operand self.now.text self.now.scope self.now.around e.now))) }
    {
        let _ = least;
        let _ = e;
        Err(Memory)
    }
}
