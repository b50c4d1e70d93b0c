//! The site of an accept: what is known of it before the program runs.

ghost use Rattle.std.specs.Prelude.{◌≡◌, [], IfOk, OnOk};
ghost use Rattle.cc_faults.specs.Judged.{after_each, answer_map, good_of, mapped};
ghost use Rattle.cc_faults.specs.Statements as statement;
ghost use Rattle.cc_types.specs.Judging.{nothing};
ghost use Rattle.cc_types.specs.Naming as naming;

use crate::checker::Checker;
use cc_base::Memory;
use cc_faults::{Answer, ClauseWord, Role};
use cc_typed::{Expression, Own, Site, note_variables};
use sqlite_items::Items;
use std::alloc::Global;

/// A clause with its word.
pub(crate) type WordAndClause = (ClauseWord, Expression);

/// What a site needs to know of its transaction: the number, and how many parameters it has.
pub(crate) type NumberAndCount = (u32, usize);

/// The clauses of an accept by their words. Of two with one word the first counts.
#[derive(Drop)]
pub(crate) struct Parted {
    pub(crate) such_that: Option<Expression>,
    pub(crate) least_by: Option<Expression>,
}

impl Parted {
    /// A clause before the others.
    fn put(&mut self, clause: WordAndClause)
        ensures { self.new ≡ naming.with_clause self.old clause.0 clause.1 }
    {
        let (word, e) = clause;
        match word {
            ClauseWord::SuchThat => self.such_that = Some(e),
            ClauseWord::By => self.least_by = Some(e),
        }
    }
}

/// Clauses by their words.
#[tactic(auto, using(crate::proofs::Clauses::partings))]
fn by_words(clauses: Items<WordAndClause>) -> Parted
    ensures { result ≡ naming.parted clauses }
{
    let mut parted = Parted {
        such_that: None,
        least_by: None,
    };
    let mut left = clauses;
    while let Some(clause) = left.pop() {
        parted.put(clause);
    }
    parted
}

/// Notes the variables of a clause.
fn note_clause(own: Own, seen: &mut Items<u32>, clause: &WordAndClause) -> Result<(), Memory>
    ensures { OnOk result (seen.new ≡ naming.clause_noted own seen.old clause.now) }
{
    note_variables(own, seen, &clause.1)?;
    Ok(())
}

/// The variables that clauses name, apart from those that are the accept's own, each once and in the order of first mention.
fn environment(alloc: Global, own: Own, clauses: &[WordAndClause]) -> Result<Items<u32>, Memory>
    ensures { IfOk result (λ xs. xs ≡ after_each (naming.clause_noted own) [] clauses.now) }
{
    let mut seen = Items::new(alloc);
    for clause in clauses {
        note_clause(own, &mut seen, clause)?;
    }
    Ok(seen)
}

/// The number of the process type in whose body an accept stands.
fn kind_of(role: Role) -> u32
    ensures { result ≡ statement.kind_of role }
{
    match role {
        Role::Body(Ok(kind)) => kind,
        _ => 0,
    }
}

/// The site of an accept, whose own variables begin with this number.
fn site_with(
    alloc: Global,
    role: Role,
    first: u32,
    transaction: NumberAndCount,
    clauses: Items<WordAndClause>,
) -> Result<Site, Memory>
    ensures { IfOk result (λ s. s ≡ naming.site_with role first (transaction, clauses)) }
{
    let (number, count) = transaction;
    let environment = environment(alloc, Own { first, count }, clauses.as_slice())?;
    let parted = by_words(clauses);
    Ok(Site {
        kind: kind_of(role),
        transaction: number,
        first,
        environment,
        such_that: parted.such_that,
        least_by: parted.least_by,
    })
}

impl Checker<'_> {
    /// Adds the site of an accept, where its head is good.
    pub(crate) fn add_site(
        &mut self,
        role: Role,
        first: u32,
        head: Answer<(NumberAndCount, Items<WordAndClause>)>,
    ) -> Result<Answer<()>, Memory>
        ensures value { IfOk result (λ r. r ≡ answer_map nothing head) }
        ensures after { OnOk result (self.new.scope ≡ statement.with_site (mapped (naming.site_with role first) (good_of head)) self.old.scope) }
        ensures names { OnOk result (self.new.scope.names ≡ self.old.scope.names) }
        ensures text { self.new.text ≡ self.old.text }
    {
        match head {
            Answer::Good((transaction, clauses)) => {
                let site = site_with(self.alloc, role, first, transaction, clauses)?;
                self.visible.add_site(site)?;
                Ok(Answer::Good(()))
            }
            Answer::Typeless => Ok(Answer::Typeless),
            Answer::Faulty => Ok(Answer::Faulty),
        }
    }
}
