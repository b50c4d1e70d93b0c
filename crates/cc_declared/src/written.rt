//! Types as they are written.

ghost use Rattle.std.specs.Prelude.{◌≡◌};
ghost use Rattle.cc_faults.specs.Faults.{noted};
ghost use Rattle.cc_faults.specs.Judged.{answer, checked, faults, known, map};
ghost use Rattle.cc_faults.specs.Rows.{int_of, value_type, visible_type, written};
ghost use Rattle.cc_faults.specs.Scopes.{entry_at};
ghost use Rattle.cc_typed.specs.Types.{of_process, of_struct};

use crate::leaves::{of_enumeration, of_process, of_struct};
use crate::names::entry;
use crate::visible::Visible;
use cc_faults::{Answer, Identifier, Least, TypeKind, TypeName, known_part, visible_type, wrong};
use cc_typed::DataType;

impl Visible {
    #[tactic(auto, using(crate::proofs::Laws::rules))]
    fn structure_named(&self, least: &mut Least, x: Identifier) -> Answer<DataType>
        ensures value { result ≡ answer (map of_struct (checked (visible_type x (entry_at self.now.structures_named x)) known)) }
        ensures noted { least.new ≡ noted least.old (faults (map of_struct (checked (visible_type x (entry_at self.now.structures_named x)) known))) }
    {
        let entry = entry(self.structures_named.as_slice(), x);
        let declared = visible_type(least, x, entry);
        of_struct(known_part(least, declared))
    }

    #[tactic(auto, using(crate::proofs::Laws::rules))]
    fn enumeration_named(&self, least: &mut Least, x: Identifier) -> Answer<DataType>
        ensures value { result ≡ answer (map int_of (checked (visible_type x (entry_at self.now.enumerations_named x)) known)) }
        ensures noted { least.new ≡ noted least.old (faults (map int_of (checked (visible_type x (entry_at self.now.enumerations_named x)) known))) }
    {
        let entry = entry(self.enumerations_named.as_slice(), x);
        let declared = visible_type(least, x, entry);
        of_enumeration(known_part(least, declared))
    }

    #[tactic(auto, using(crate::proofs::Laws::rules))]
    fn process_named(&self, least: &mut Least, x: Identifier) -> Answer<DataType>
        ensures value { result ≡ answer (map of_process (visible_type x (entry_at self.now.processes_named x))) }
        ensures noted { least.new ≡ noted least.old (faults (map of_process (visible_type x (entry_at self.now.processes_named x)))) }
    {
        let entry = entry(self.processes_named.as_slice(), x);
        of_process(visible_type(least, x, entry))
    }

    /// The type that is written, which may be `void`. UnknownType is noted of a name that is not visible.
    #[tactic(auto, using(crate::proofs::Laws::rules))]
    pub fn type_written(&self, least: &mut Least, t: TypeName) -> Answer<DataType>
        ensures value { result ≡ answer (written self.now t) }
        ensures noted { least.new ≡ noted least.old (faults (written self.now t)) }
    {
        match t {
            TypeName::Void(_) => Answer::Good(DataType::Void),
            TypeName::Number(number_type) => Answer::Good(DataType::number(number_type)),
            TypeName::Structure(x) => self.structure_named(least, x),
            TypeName::Enumeration(x) => self.enumeration_named(least, x),
            TypeName::Process(x) => self.process_named(least, x),
        }
    }

    /// The type of a variable, a parameter or a field. VoidHere is noted of `void`.
    #[tactic(auto, using(crate::proofs::Laws::rules))]
    pub fn value_type(&self, least: &mut Least, t: TypeName) -> Answer<DataType>
        ensures value { result ≡ answer (value_type self.now t) }
        ensures noted { least.new ≡ noted least.old (faults (value_type self.now t)) }
    {
        match t {
            TypeName::Void(place) => {
                wrong(least, place, TypeKind::VoidHere);
                Answer::Faulty
            }
            other => self.type_written(least, other),
        }
    }
}
