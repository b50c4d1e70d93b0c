ghost use Rattle.std.specs.List.{list_all};
ghost use Rattle.std.specs.Option.{option_copied};
ghost use Rattle.std.specs.Prelude.{◌≡◌, ◌++◌, true, [], ◌∷◌, length, map, slice_get, IfOk, OnOk, Some};
ghost use Rattle.cc_base.specs.Granted.{args_taken};
ghost use Rattle.cc_source.specs.Gives.{EndsFit, GivesBy, IfValue, Stands, around, body_variables, caller, flow_in, is_ended, left, scope, size, structures_of, value};
ghost use Rattle.cc_source.specs.Lists.{exec_all};
ghost use Rattle.cc_source.specs.Meaning.{accepted, alternative_at, exec, given, reply_cells, scope_taken, set_from, transaction_of, value_at};
ghost use Rattle.cc_source.specs.Straight.{is_straight_option, is_straight_statement};
ghost use Rattle.cc_typed.specs.Missing.{first_at, parameters_at, value_type_at};
ghost use Rattle.cc_typed.specs.Table.{is_table, layouts_of};
ghost use Rattle.cc_typed.specs.Typed.{have_types_from, in_accept, is_accepted, is_given, is_typed_program, is_typed_statement};
ghost use Rattle.cc_typed.specs.Values.{flat, flats, unflats};

use crate::cells::{after, append, items_from};
use crate::ending::Ending;
use crate::evaluator::Evaluator;
use crate::run::{Run, Unfinished};
use cc_base::{Alt, Alts, Cells, Grant, Memory, Request};
use cc_typed::{AcceptPart, DataType, Expression, Site, Statement, Transaction, cells_in};
use sqlite_items::Items;
use std::alloc::Global;

impl Evaluator<'_> {
    /// What a statement does.
    #[cycle(statements)]
    #[tactic(auto, using(crate::proofs::Executions::executing, crate::proofs::Weights::weighs, crate::proofs::Means::does, crate::proofs::Straight::straight_statements, cc_typed::proofs::TypedStatements::typed_statements))]
    pub(crate) fn statement(&self, run: &mut Run<'_>, s: &Statement) -> Result<Ending, Unfinished>
        requires program { is_typed_program self.now.program.now ≡ true }
        requires body { body_variables self.now.program.now self.now.kind ≡ self.now.variables.now }
        requires stands { Stands self.now run.old }
        requires straight { is_straight_statement s.now ≡ true }
        requires typed { is_typed_statement (around self.now) s.now ≡ true }
        ensures ends { GivesBy (flow_in self.now) self.now result run.new (exec self.now.program.now (caller self.now) s.now (scope self.now run.old) (left run.old)) }
        ensures size { IfOk result (EndsFit self.now) }
        ensures stands { IfOk result (λ ending. Stands self.now run.new) }
    {
        match s {
            Statement::Empty => Ok(Ending::Ended),
            Statement::Evaluate { expression } => {
                self.expression(run, expression)?;
                Ok(Ending::Ended)
            }
            Statement::Declare {
                variable,
                data_type,
            } => {
                let cells = self.zero(*data_type)?;
                self.set(run, *variable as usize, *data_type, cells);
                Ok(Ending::Ended)
            }
            Statement::Block { entries } => self.statements(run, entries.as_slice()),
            Statement::TransactionReturn { value, data_type } => {
                let cells = self.given(run, value, *data_type)?;
                Ok(Ending::Replied(cells))
            }
            Statement::Accept { part } => self.accept(run, part),
            Statement::Initialize { .. }
            | Statement::If { .. }
            | Statement::IfElse { .. }
            | Statement::While { .. }
            | Statement::DoWhile { .. }
            | Statement::For { .. }
            | Statement::Break
            | Statement::Continue
            | Statement::Return { .. }
            | Statement::Finish { .. }
            | Statement::Delay { .. }
            | Statement::Select { .. } => unreachable!(),
        }
    }

    /// What statements do in a row, up to one that leaves.
    #[cycle(statements)]
    #[tactic(auto, using(crate::proofs::Executions::in_a_row, crate::proofs::Weights::weighs))]
    pub(crate) fn statements(
        &self,
        run: &mut Run<'_>,
        all: &[Statement],
    ) -> Result<Ending, Unfinished>
        requires program { is_typed_program self.now.program.now ≡ true }
        requires body { body_variables self.now.program.now self.now.kind ≡ self.now.variables.now }
        requires stands { Stands self.now run.old }
        requires straight { list_all is_straight_statement all.now ≡ true }
        requires typed { list_all (is_typed_statement (around self.now)) all.now ≡ true }
        ensures ends { GivesBy (flow_in self.now) self.now result run.new (exec_all self.now.program.now (caller self.now) all.now (scope self.now run.old) (left run.old)) }
        ensures size { IfOk result (EndsFit self.now) }
        ensures stands { IfOk result (λ ending. Stands self.now run.new) }
    {
        for s in all {
            let ending = self.statement(run, s)?;
            if !ending.is_by_itself() {
                return Ok(ending);
            }
        }
        Ok(Ending::Ended)
    }

    /// The value of an expression as one of this type, or the zero of the type where there is none.
    fn given(
        &self,
        run: &mut Run<'_>,
        expression: &Option<Expression>,
        data_type: DataType,
    ) -> Result<Items<i64>, Unfinished>
        requires table { is_table (structures_of self.now) ≡ true }
        requires stands { Stands self.now run.old }
        requires straight { is_straight_option expression.now ≡ true }
        requires typed { is_given (around self.now) expression.now data_type ≡ true }
        ensures value { GivesBy (value self.now data_type) self.now result run.new (given self.now.program.now (caller self.now) expression.now data_type (scope self.now run.old) (left run.old)) }
        ensures size { IfOk result (λ cs. length cs ≡ size self.now data_type) }
        ensures stands { IfOk result (λ cs. Stands self.now run.new) }
    {
        match expression {
            None => self.zero(data_type),
            Some(e) => {
                let cells = self.expression(run, e)?;
                self.convert(run, e.data_type(), data_type, cells)
            }
        }
    }

    /// An accept: a call is waited for, served and answered.
    #[cycle(statements)]
    #[tactic(auto, using(crate::proofs::Executions::accepting, crate::proofs::Weights::weighs))]
    fn accept(&self, run: &mut Run<'_>, part: &AcceptPart) -> Result<Ending, Unfinished>
        requires program { is_typed_program self.now.program.now ≡ true }
        requires body { body_variables self.now.program.now self.now.kind ≡ self.now.variables.now }
        requires stands { Stands self.now run.old }
        requires straight { list_all is_straight_statement part.now.block ≡ true }
        requires site { is_accepted (around self.now) (slice_get self.now.program.now.sites part.now.site) ≡ true }
        requires typed { list_all (is_typed_statement (in_accept (around self.now) part.now.site)) part.now.block ≡ true }
        ensures ends { GivesBy (flow_in self.now) self.now result run.new (accepted self.now.program.now (caller self.now) part.now.site (exec_all self.now.program.now (caller self.now) part.now.block) (scope self.now run.old) (left run.old)) }
        ensures size { IfOk result (EndsFit self.now) }
        ensures stands { IfOk result (λ ending. Stands self.now run.new) }
    {
        let alts = self.open_alone(run, part.site)?;
        let grant = self.ask(run, Request::Select { alts })?;
        self.take_arguments(run, part.site, grant)?;
        let inner = self.in_accept(part.site);
        let ending = inner.statements(run, part.block.as_slice())?;
        let value = inner.reply(part.site, ending)?;
        self.ask(run, Request::Reply { value })?;
        Ok(Ending::Ended)
    }

    /// The evaluator for the block of an accept.
    fn in_accept(&self, site: u32) -> Evaluator<'_>
        ensures around { around result ≡ in_accept (around self.now) site }
        ensures caller { caller result ≡ caller self.now }
        ensures program { result.program.now ≡ self.now.program.now }
        ensures variables { result.variables.now ≡ self.now.variables.now }
        ensures kind { result.kind ≡ self.now.kind }
        ensures replies { result.replies ≡ Some (value_type_at (transaction_of self.now.program.now site)) }
    {
        Evaluator {
            alloc: self.alloc,
            program: self.program,
            variables: self.variables,
            kind: self.kind,
            result: self.result,
            replies: Some(self.value_type(site)),
            calls: self.calls,
            cells: self.cells,
        }
    }

    fn site(&self, site: u32) -> Option<&Site>
        ensures site { option_copied result ≡ slice_get self.now.program.now.sites site }
    {
        let program = self.program;
        program.sites.get(site as usize)
    }

    /// The transaction of a site.
    fn transaction(&self, site: u32) -> Option<&Transaction>
        ensures transaction { option_copied result ≡ transaction_of self.now.program.now site }
    {
        let transaction = match self.site(site) {
            Some(site) => site.transaction,
            None => 0,
        };
        let program = self.program;
        program.transactions.get(transaction as usize)
    }

    /// The type of the value of a site's transaction.
    fn value_type(&self, site: u32) -> DataType
        ensures value_type { result ≡ value_type_at (transaction_of self.now.program.now site) }
    {
        match self.transaction(site) {
            Some(transaction) => transaction.value,
            None => DataType::Void,
        }
    }

    /// The types of the parameters of a site's transaction.
    fn parameters(&self, site: u32) -> &[DataType]
        ensures parameters { result.now ≡ parameters_at (transaction_of self.now.program.now site) }
    {
        match self.transaction(site) {
            Some(transaction) => transaction.parameters.as_slice(),
            None => &[],
        }
    }

    /// The number of the first parameter of an accept.
    fn first(&self, site: u32) -> u32
        ensures first { result ≡ first_at (slice_get self.now.program.now.sites site) }
    {
        match self.site(site) {
            Some(site) => site.first,
            None => 0,
        }
    }

    /// The alternative of an accept, alone, as number 0.
    fn open_alone(&self, run: &Run<'_>, site: u32) -> Result<Alts, Unfinished>
        requires stands { Stands self.now run.now }
        ensures alternative { IfValue result (λ alts. alts ≡ (0, alternative_at self.now.program.now site (scope self.now run.now)) ∷ []) }
    {
        let (trans, environment) = match self.site(site) {
            Some(site) => (site.transaction, site.environment.as_slice()),
            None => (0, [].as_slice()),
        };
        let env = self.cells_of(run, environment)?;
        let mut alts = Alts::new(self.alloc);
        alts.push((0, Alt::Accept { trans, site, env }))?;
        Ok(alts)
    }

    /// The cells of variables in order.
    #[tactic(auto, using(crate::proofs::Scopes::accepts))]
    fn cells_of(&self, run: &Run<'_>, variables: &[u32]) -> Result<Cells, Unfinished>
        requires stands { Stands self.now run.now }
        ensures cells { IfValue result (λ cs. cs ≡ flats (map (value_at (scope self.now run.now)) variables.now)) }
    {
        let mut all = Cells::new(self.alloc);
        for variable in variables {
            self.put_cells(run, &mut all, *variable)?;
        }
        Ok(all)
    }

    /// Puts the cells of a variable at the end; one that is not there counts as 0.
    #[tactic(auto, using(crate::proofs::Scopes::accepts))]
    fn put_cells(&self, run: &Run<'_>, all: &mut Cells, variable: u32) -> Result<(), Unfinished>
        requires stands { Stands self.now run.now }
        ensures cells { IfValue result (λ _. all.new ≡ all.old ++ flat (value_at (scope self.now run.now) variable)) }
    {
        match run.scope.get(variable as usize) {
            Some(cells) => append(all, cells.as_slice())?,
            None => all.push(0)?,
        }
        Ok(())
    }

    /// Sets the parameters of an accept to the arguments of the call that was taken.
    fn take_arguments(&self, run: &mut Run<'_>, site: u32, grant: &Grant) -> Result<(), Unfinished>
        requires table { is_table (structures_of self.now) ≡ true }
        requires stands { Stands self.now run.old }
        requires types { have_types_from (parameters_at (transaction_of self.now.program.now site)) self.now.variables.now (first_at (slice_get self.now.program.now.sites site)) ≡ true }
        ensures scope { IfValue result (λ _. scope self.now run.new ≡ scope_taken self.now.program.now site grant.now (scope self.now run.old)) }
        ensures left { left run.new ≡ left run.old }
        ensures stands { IfOk result (λ _. Stands self.now run.new) }
    {
        let args = arguments_taken(self.alloc, grant)?;
        self.set_from(
            run,
            self.first(site),
            self.parameters(site),
            args.as_slice(),
        )
    }

    /// Sets the variables of these types, from this number on, to the values that have these cells in order.
    #[tactic(auto, using(crate::proofs::Scopes::accepts))]
    fn set_from(
        &self,
        run: &mut Run<'_>,
        first: u32,
        types: &[DataType],
        cells: &[i64],
    ) -> Result<(), Unfinished>
        requires table { is_table (structures_of self.now) ≡ true }
        requires stands { Stands self.now run.old }
        requires types { have_types_from types.now self.now.variables.now first ≡ true }
        ensures scope { IfValue result (λ _. scope self.now run.new ≡ set_from first (unflats (layouts_of (structures_of self.now) types.now) cells.now) (scope self.now run.old)) }
        ensures left { left run.new ≡ left run.old }
        ensures stands { IfOk result (λ _. Stands self.now run.new) }
    {
        let program = self.program;
        let mut variable = first as usize;
        let mut rest = cells;
        for data_type in types {
            let new = self.fit(*data_type, rest)?;
            self.set(run, variable, *data_type, new);
            rest = after(rest, cells_in(program.structures.as_slice(), *data_type));
            variable += 1;
        }
        Ok(())
    }

    /// The cells with which an accept's block replies that ended so.
    #[tactic(auto, using(crate::proofs::Executions::replying))]
    fn reply_value(&self, site: u32, ending: Ending) -> Result<Items<i64>, Unfinished>
        requires table { is_table (structures_of self.now) ≡ true }
        requires replies { self.now.replies ≡ Some (value_type_at (transaction_of self.now.program.now site)) }
        requires size { EndsFit self.now ending }
        ensures cells { IfValue result (λ cs. cs ≡ reply_cells self.now.program.now site (flow_in self.now ending)) }
    {
        match ending {
            Ending::Replied(cells) => Ok(cells),
            Ending::Ended => self.zero(self.value_type(site)),
            Ending::Broke => self.zero(self.value_type(site)),
            Ending::Continued => self.zero(self.value_type(site)),
            Ending::Returned(_) => self.zero(self.value_type(site)),
            Ending::Finished => self.zero(self.value_type(site)),
        }
    }

    /// The same, as the cells of a request.
    fn reply(&self, site: u32, ending: Ending) -> Result<Cells, Unfinished>
        requires table { is_table (structures_of self.now) ≡ true }
        requires replies { self.now.replies ≡ Some (value_type_at (transaction_of self.now.program.now site)) }
        requires size { EndsFit self.now ending }
        ensures cells { IfValue result (λ cs. cs ≡ reply_cells self.now.program.now site (flow_in self.now ending)) }
    {
        let value = self.reply_value(site, ending)?;
        let mut cells = Cells::new(self.alloc);
        append(&mut cells, value.as_slice())?;
        Ok(cells)
    }
}

/// The cells of the arguments of the call that was taken.
fn arguments_taken(alloc: Global, grant: &Grant) -> Result<Items<i64>, Memory>
    ensures cells { IfOk result (λ cs. cs ≡ args_taken grant.now) }
{
    match grant {
        Grant::Took { args, .. } => items_from(alloc, args),
        Grant::Go
        | Grant::Made(_)
        | Grant::Value(_)
        | Grant::Late
        | Grant::Gone
        | Grant::Chose { .. }
        | Grant::Byte(_) => Ok(Items::new(alloc)),
    }
}
