//! Readers of types and of what declares names: fields, constants, transactions, parameters.

ghost use Rattle.cc_grammar.specs.Begins.{type_starts};
ghost use Rattle.cc_grammar.specs.Kinds.{mark_kind, word_kind};
ghost use Rattle.cc_grammar.specs.Reading.{loop, symbol};
ghost use Rattle.cc_grammar.specs.Symbols as the;
ghost use Rattle.cc_grammar.specs.Trees as trees;
ghost use Rattle.cc_lex.specs.declared.token.Mark.TheVariants as mark;
ghost use Rattle.cc_lex.specs.declared.token.Word.TheVariants as word;
ghost use Rattle.cc_expressions.specs.Steps.{Reads};
ghost use Rattle.std.specs.Prelude.{◌≡◌, ◌∷◌, [], length, IfOk};

use cc_expressions::{
    CHARACTER, Cursor, NAME, NUMBER, Simple, Stop, before, begins_type, character_length,
    identifier, key, number_length, sign,
};
use cc_grammar::{
    Constant, ConstantValue, Declarator, Field, Identifier, Length, Parameter, Transaction,
    TransactionParameter, TypeName,
};
use cc_lex::{Mark, Word};
use sqlite_items::Items;
use std::alloc::{AllocError, Global};

/// What each reader of declarations is given.
#[derive(Clone, Copy)]
pub struct Declarations {
    pub simple: Simple,
}

impl Declarations {
    #[tactic(auto, using(crate::proofs::Expand::number_type_is))]
    fn number_type(&self, tokens: &mut Cursor<'_>) -> Result<TypeName, Stop>
        ensures { Reads (symbol self.now.simple.room the.number_type tokens.old) result tokens.new }
    {
        if tokens.sees(key(Word::Char)) {
            let place = tokens.expect(key(Word::Char))?.place;
            Ok(TypeName::Char(place))
        } else if tokens.sees(key(Word::Int)) {
            let place = tokens.expect(key(Word::Int))?.place;
            Ok(TypeName::Int(place))
        } else {
            let place = tokens.expect(key(Word::Long))?.place;
            Ok(TypeName::Long(place))
        }
    }

    /// Reads `void` or a type of numbers.
    #[tactic(auto, using(crate::proofs::Expand::simple_type_is))]
    pub fn simple_type(&self, tokens: &mut Cursor<'_>) -> Result<TypeName, Stop>
        ensures read { Reads (symbol self.now.simple.room the.simple_type tokens.old) result tokens.new }
    {
        if tokens.sees(key(Word::Void)) {
            let place = tokens.expect(key(Word::Void))?.place;
            Ok(TypeName::Void(place))
        } else {
            self.number_type(tokens)
        }
    }

    #[tactic(auto, using(crate::proofs::Expand::named_type_is))]
    fn named_type(&self, tokens: &mut Cursor<'_>) -> Result<TypeName, Stop>
        ensures { Reads (symbol self.now.simple.room the.named_type tokens.old) result tokens.new }
    {
        if tokens.sees(key(Word::Struct)) {
            let place = tokens.expect(key(Word::Struct))?.place;
            let name = identifier(self.simple.alloc, tokens.expect(NAME)?)?;
            Ok(TypeName::Structure(place, name))
        } else if tokens.sees(key(Word::Enum)) {
            let place = tokens.expect(key(Word::Enum))?.place;
            let name = identifier(self.simple.alloc, tokens.expect(NAME)?)?;
            Ok(TypeName::Enumeration(place, name))
        } else {
            let place = tokens.expect(key(Word::Process))?.place;
            let name = identifier(self.simple.alloc, tokens.expect(NAME)?)?;
            Ok(TypeName::Process(place, name))
        }
    }

    /// Reads a type.
    #[tactic(auto, using(crate::proofs::Expand::type_is))]
    pub fn type_name(&self, tokens: &mut Cursor<'_>) -> Result<TypeName, Stop>
        ensures read { Reads (symbol self.now.simple.room the.type tokens.old) result tokens.new }
    {
        if tokens.at(&[
            key(Word::Void),
            key(Word::Char),
            key(Word::Int),
            key(Word::Long),
        ]) {
            self.simple_type(tokens)
        } else {
            self.named_type(tokens)
        }
    }

    #[tactic(auto, using(crate::proofs::Expand::value_type_is))]
    fn value_type(&self, tokens: &mut Cursor<'_>) -> Result<TypeName, Stop>
        ensures { Reads (symbol self.now.simple.room the.value_type tokens.old) result tokens.new }
    {
        if tokens.at(&[key(Word::Char), key(Word::Int), key(Word::Long)]) {
            self.number_type(tokens)
        } else {
            self.named_type(tokens)
        }
    }

    #[tactic(auto, using(crate::proofs::Expand::length_is))]
    fn length(&self, tokens: &mut Cursor<'_>) -> Result<Length, Stop>
        ensures { Reads (symbol self.now.simple.room the.length tokens.old) result tokens.new }
    {
        if tokens.sees(NUMBER) {
            Ok(number_length(tokens.expect(NUMBER)?))
        } else if tokens.sees(CHARACTER) {
            Ok(character_length(tokens.expect(CHARACTER)?))
        } else {
            let name = identifier(self.simple.alloc, tokens.expect(NAME)?)?;
            Ok(Length::Name(name))
        }
    }

    /// Reads the length of an array, in brackets.
    #[tactic(auto, using(crate::proofs::Expand::array_length_is))]
    pub fn array_length(&self, tokens: &mut Cursor<'_>) -> Result<Length, Stop>
        ensures read { Reads (symbol self.now.simple.room the.array_length tokens.old) result tokens.new }
    {
        tokens.expect(sign(Mark::OpenBracket))?;
        let length = self.length(tokens)?;
        tokens.expect(sign(Mark::CloseBracket))?;
        Ok(length)
    }

    #[tactic(auto, using(crate::proofs::Expand::signed_length_is))]
    fn signed_length(&self, tokens: &mut Cursor<'_>) -> Result<ConstantValue, Stop>
        ensures { Reads (symbol self.now.simple.room the.signed_length tokens.old) result tokens.new }
    {
        if tokens.sees(sign(Mark::Minus)) {
            tokens.expect(sign(Mark::Minus))?;
            let length = self.length(tokens)?;
            Ok(ConstantValue {
                negative: true,
                length,
            })
        } else {
            let length = self.length(tokens)?;
            Ok(ConstantValue {
                negative: false,
                length,
            })
        }
    }

    #[tactic(auto, using(crate::proofs::Expand::constant_value_is))]
    fn constant_value(&self, tokens: &mut Cursor<'_>) -> Result<ConstantValue, Stop>
        ensures { Reads (symbol self.now.simple.room the.constant_value tokens.old) result tokens.new }
    {
        tokens.expect(sign(Mark::Assign))?;
        self.signed_length(tokens)
    }

    #[tactic(auto, using(crate::proofs::Expand::constant_is))]
    fn constant(&self, tokens: &mut Cursor<'_>) -> Result<Constant, Stop>
        ensures { Reads (symbol self.now.simple.room the.constant tokens.old) result tokens.new }
    {
        let name = identifier(self.simple.alloc, tokens.expect(NAME)?)?;
        if tokens.sees(sign(Mark::Assign)) {
            let value = self.constant_value(tokens)?;
            Ok(Constant {
                name,
                value: Some(value),
            })
        } else {
            Ok(Constant { name, value: None })
        }
    }

    #[tactic(auto, using(crate::proofs::Expand::next_constant_is))]
    fn next_constant(&self, tokens: &mut Cursor<'_>) -> Result<Constant, Stop>
        ensures { Reads (symbol self.now.simple.room the.next_constant tokens.old) result tokens.new }
    {
        tokens.expect(sign(Mark::Comma))?;
        self.constant(tokens)
    }

    #[tactic(auto, unfolding(cc_expressions::specs::Turns::from))]
    fn next_constants(&self, tokens: &mut Cursor<'_>) -> Result<Items<Constant>, Stop>
        ensures { Reads (loop (symbol self.now.simple.room the.next_constant) (mark_kind mark.Comma ∷ []) (length tokens.old) tokens.old) result tokens.new }
    {
        let mut found = Items::new(self.simple.alloc);
        for _turn in 0..tokens.left() {
            if !tokens.sees(sign(Mark::Comma)) {
                return Ok(found);
            }
            found.push(self.next_constant(tokens)?)?;
        }
        Ok(found)
    }

    #[tactic(auto, using(crate::proofs::Expand::constant_list_is))]
    fn constant_list(&self, tokens: &mut Cursor<'_>) -> Result<Items<Constant>, Stop>
        ensures { Reads (symbol self.now.simple.room the.constant_list tokens.old) result tokens.new }
    {
        let first = self.constant(tokens)?;
        let others = self.next_constants(tokens)?;
        Ok(before(self.simple.alloc, first, others)?)
    }

    /// Reads the constants of an enumeration, in braces, and `;`.
    #[tactic(auto, using(crate::proofs::Expand::constants_is))]
    pub fn constants(&self, tokens: &mut Cursor<'_>) -> Result<Items<Constant>, Stop>
        ensures read { Reads (symbol self.now.simple.room the.constants tokens.old) result tokens.new }
    {
        tokens.expect(sign(Mark::OpenBrace))?;
        let list = self.constant_list(tokens)?;
        tokens.expect(sign(Mark::CloseBrace))?;
        tokens.expect(sign(Mark::Semicolon))?;
        Ok(list)
    }

    #[tactic(auto, using(crate::proofs::Expand::declarator_is))]
    fn declarator(&self, tokens: &mut Cursor<'_>) -> Result<Declarator, Stop>
        ensures { Reads (symbol self.now.simple.room the.declarator tokens.old) result tokens.new }
    {
        let name = identifier(self.simple.alloc, tokens.expect(NAME)?)?;
        if tokens.sees(sign(Mark::OpenBracket)) {
            let length = self.array_length(tokens)?;
            Ok(Declarator {
                name,
                length: Some(length),
            })
        } else {
            Ok(Declarator { name, length: None })
        }
    }

    #[tactic(auto, using(crate::proofs::Expand::next_declarator_is))]
    fn next_declarator(&self, tokens: &mut Cursor<'_>) -> Result<Declarator, Stop>
        ensures { Reads (symbol self.now.simple.room the.next_declarator tokens.old) result tokens.new }
    {
        tokens.expect(sign(Mark::Comma))?;
        self.declarator(tokens)
    }

    #[tactic(auto, unfolding(cc_expressions::specs::Turns::from))]
    fn next_declarators(&self, tokens: &mut Cursor<'_>) -> Result<Items<Declarator>, Stop>
        ensures { Reads (loop (symbol self.now.simple.room the.next_declarator) (mark_kind mark.Comma ∷ []) (length tokens.old) tokens.old) result tokens.new }
    {
        let mut found = Items::new(self.simple.alloc);
        for _turn in 0..tokens.left() {
            if !tokens.sees(sign(Mark::Comma)) {
                return Ok(found);
            }
            found.push(self.next_declarator(tokens)?)?;
        }
        Ok(found)
    }

    #[tactic(auto, using(crate::proofs::Expand::declarators_is))]
    fn declarators(&self, tokens: &mut Cursor<'_>) -> Result<Items<Declarator>, Stop>
        ensures { Reads (symbol self.now.simple.room the.declarators tokens.old) result tokens.new }
    {
        let first = self.declarator(tokens)?;
        let others = self.next_declarators(tokens)?;
        Ok(before(self.simple.alloc, first, others)?)
    }

    #[tactic(auto, using(crate::proofs::Expand::field_is))]
    fn field(&self, tokens: &mut Cursor<'_>) -> Result<Field, Stop>
        ensures { Reads (symbol self.now.simple.room the.field tokens.old) result tokens.new }
    {
        let of = self.type_name(tokens)?;
        let declarators = self.declarators(tokens)?;
        tokens.expect(sign(Mark::Semicolon))?;
        Ok(Field { of, declarators })
    }

    #[tactic(auto, unfolding(cc_expressions::specs::Turns::from))]
    fn more_fields(&self, tokens: &mut Cursor<'_>) -> Result<Items<Field>, Stop>
        ensures { Reads (loop (symbol self.now.simple.room the.field) type_starts (length tokens.old) tokens.old) result tokens.new }
    {
        let mut found = Items::new(self.simple.alloc);
        for _turn in 0..tokens.left() {
            if !begins_type(tokens) {
                return Ok(found);
            }
            found.push(self.field(tokens)?)?;
        }
        Ok(found)
    }

    #[tactic(auto, using(crate::proofs::Expand::field_list_is))]
    fn field_list(&self, tokens: &mut Cursor<'_>) -> Result<Items<Field>, Stop>
        ensures { Reads (symbol self.now.simple.room the.field_list tokens.old) result tokens.new }
    {
        let first = self.field(tokens)?;
        let others = self.more_fields(tokens)?;
        Ok(before(self.simple.alloc, first, others)?)
    }

    /// Reads the fields of a structure, in braces, and `;`.
    #[tactic(auto, using(crate::proofs::Expand::fields_is))]
    pub fn fields(&self, tokens: &mut Cursor<'_>) -> Result<Items<Field>, Stop>
        ensures read { Reads (symbol self.now.simple.room the.fields tokens.old) result tokens.new }
    {
        tokens.expect(sign(Mark::OpenBrace))?;
        let list = self.field_list(tokens)?;
        tokens.expect(sign(Mark::CloseBrace))?;
        tokens.expect(sign(Mark::Semicolon))?;
        Ok(list)
    }

    #[tactic(auto, using(crate::proofs::Expand::transaction_parameter_is))]
    fn transaction_parameter(&self, tokens: &mut Cursor<'_>) -> Result<TransactionParameter, Stop>
        ensures { Reads (symbol self.now.simple.room the.transaction_parameter tokens.old) result tokens.new }
    {
        let of = self.type_name(tokens)?;
        if tokens.sees(NAME) {
            let name = identifier(self.simple.alloc, tokens.expect(NAME)?)?;
            Ok(TransactionParameter {
                of,
                name: Some(name),
            })
        } else {
            Ok(TransactionParameter { of, name: None })
        }
    }

    #[tactic(auto, using(crate::proofs::Expand::next_transaction_parameter_is))]
    fn next_transaction_parameter(
        &self,
        tokens: &mut Cursor<'_>,
    ) -> Result<TransactionParameter, Stop>
        ensures { Reads (symbol self.now.simple.room the.next_transaction_parameter tokens.old) result tokens.new }
    {
        tokens.expect(sign(Mark::Comma))?;
        self.transaction_parameter(tokens)
    }

    #[tactic(auto, unfolding(cc_expressions::specs::Turns::from))]
    fn next_transaction_parameters(
        &self,
        tokens: &mut Cursor<'_>,
    ) -> Result<Items<TransactionParameter>, Stop>
        ensures { Reads (loop (symbol self.now.simple.room the.next_transaction_parameter) (mark_kind mark.Comma ∷ []) (length tokens.old) tokens.old) result tokens.new }
    {
        let mut found = Items::new(self.simple.alloc);
        for _turn in 0..tokens.left() {
            if !tokens.sees(sign(Mark::Comma)) {
                return Ok(found);
            }
            found.push(self.next_transaction_parameter(tokens)?)?;
        }
        Ok(found)
    }

    #[tactic(auto, using(crate::proofs::Expand::transaction_parameters_is))]
    fn transaction_parameters(
        &self,
        tokens: &mut Cursor<'_>,
    ) -> Result<Items<TransactionParameter>, Stop>
        ensures { Reads (symbol self.now.simple.room the.transaction_parameters tokens.old) result tokens.new }
    {
        if begins_type(tokens) {
            let first = self.transaction_parameter(tokens)?;
            let others = self.next_transaction_parameters(tokens)?;
            Ok(unless_void(self.simple.alloc, first, others)?)
        } else {
            Ok(Items::new(self.simple.alloc))
        }
    }

    /// Reads the parameters of a transaction or of a process type, in parentheses.
    #[tactic(auto, using(crate::proofs::Expand::signature_is))]
    pub fn signature(&self, tokens: &mut Cursor<'_>) -> Result<Items<TransactionParameter>, Stop>
        ensures read { Reads (symbol self.now.simple.room the.signature tokens.old) result tokens.new }
    {
        tokens.expect(sign(Mark::OpenParenthesis))?;
        let parameters = self.transaction_parameters(tokens)?;
        tokens.expect(sign(Mark::CloseParenthesis))?;
        Ok(parameters)
    }

    #[tactic(auto, using(crate::proofs::Expand::transaction_type_is))]
    fn transaction_type(&self, tokens: &mut Cursor<'_>) -> Result<Option<TypeName>, Stop>
        ensures { Reads (symbol self.now.simple.room the.transaction_type tokens.old) result tokens.new }
    {
        if tokens.sees(key(Word::Async)) {
            tokens.expect(key(Word::Async))?;
            Ok(None)
        } else {
            let result = self.type_name(tokens)?;
            Ok(Some(result))
        }
    }

    #[tactic(auto, using(crate::proofs::Expand::transaction_head_is))]
    fn transaction_head(
        &self,
        tokens: &mut Cursor<'_>,
    ) -> Result<(Identifier, Items<TransactionParameter>), Stop>
        ensures { Reads (symbol self.now.simple.room the.transaction_head tokens.old) result tokens.new }
    {
        let name = identifier(self.simple.alloc, tokens.expect(NAME)?)?;
        let parameters = self.signature(tokens)?;
        Ok((name, parameters))
    }

    #[tactic(auto, using(crate::proofs::Expand::transaction_is))]
    fn transaction(&self, tokens: &mut Cursor<'_>) -> Result<Transaction, Stop>
        ensures { Reads (symbol self.now.simple.room the.transaction tokens.old) result tokens.new }
    {
        tokens.expect(key(Word::Trans))?;
        let result = self.transaction_type(tokens)?;
        let (name, parameters) = self.transaction_head(tokens)?;
        tokens.expect(sign(Mark::Semicolon))?;
        Ok(Transaction {
            result,
            name,
            parameters,
        })
    }

    #[tactic(auto, unfolding(cc_expressions::specs::Turns::from))]
    fn transaction_list(&self, tokens: &mut Cursor<'_>) -> Result<Items<Transaction>, Stop>
        ensures { Reads (loop (symbol self.now.simple.room the.transaction) (word_kind word.Trans ∷ []) (length tokens.old) tokens.old) result tokens.new }
    {
        let mut found = Items::new(self.simple.alloc);
        for _turn in 0..tokens.left() {
            if !tokens.sees(key(Word::Trans)) {
                return Ok(found);
            }
            found.push(self.transaction(tokens)?)?;
        }
        Ok(found)
    }

    #[tactic(auto, using(crate::proofs::Expand::transactions_is))]
    fn transactions(&self, tokens: &mut Cursor<'_>) -> Result<Items<Transaction>, Stop>
        ensures { Reads (symbol self.now.simple.room the.transactions tokens.old) result tokens.new }
    {
        tokens.expect(sign(Mark::OpenBrace))?;
        let list = self.transaction_list(tokens)?;
        tokens.expect(sign(Mark::CloseBrace))?;
        Ok(list)
    }

    /// Reads the transactions of a specification, if there are any, and its end.
    #[tactic(auto, using(crate::proofs::Expand::specification_end_is))]
    pub fn specification_end(
        &self,
        tokens: &mut Cursor<'_>,
    ) -> Result<Option<Items<Transaction>>, Stop>
        ensures read { Reads (symbol self.now.simple.room the.specification_end tokens.old) result tokens.new }
    {
        if tokens.sees(sign(Mark::OpenBrace)) {
            let list = self.transactions(tokens)?;
            tokens.expect(sign(Mark::Semicolon))?;
            Ok(Some(list))
        } else {
            tokens.expect(sign(Mark::Semicolon))?;
            Ok(None)
        }
    }

    #[tactic(auto, using(crate::proofs::Expand::parameter_is))]
    fn parameter(&self, tokens: &mut Cursor<'_>) -> Result<Parameter, Stop>
        ensures { Reads (symbol self.now.simple.room the.parameter tokens.old) result tokens.new }
    {
        let of = self.type_name(tokens)?;
        let name = identifier(self.simple.alloc, tokens.expect(NAME)?)?;
        Ok(Parameter { of, name })
    }

    #[tactic(auto, using(crate::proofs::Expand::next_parameter_is))]
    fn next_parameter(&self, tokens: &mut Cursor<'_>) -> Result<Parameter, Stop>
        ensures { Reads (symbol self.now.simple.room the.next_parameter tokens.old) result tokens.new }
    {
        tokens.expect(sign(Mark::Comma))?;
        self.parameter(tokens)
    }

    #[tactic(auto, unfolding(cc_expressions::specs::Turns::from))]
    fn next_parameters(&self, tokens: &mut Cursor<'_>) -> Result<Items<Parameter>, Stop>
        ensures { Reads (loop (symbol self.now.simple.room the.next_parameter) (mark_kind mark.Comma ∷ []) (length tokens.old) tokens.old) result tokens.new }
    {
        let mut found = Items::new(self.simple.alloc);
        for _turn in 0..tokens.left() {
            if !tokens.sees(sign(Mark::Comma)) {
                return Ok(found);
            }
            found.push(self.next_parameter(tokens)?)?;
        }
        Ok(found)
    }

    #[tactic(auto, using(crate::proofs::Expand::parameters_from_name_is))]
    fn parameters_from_name(
        &self,
        tokens: &mut Cursor<'_>,
    ) -> Result<(Identifier, Items<Parameter>), Stop>
        ensures { Reads (symbol self.now.simple.room the.parameters_from_name tokens.old) result tokens.new }
    {
        let name = identifier(self.simple.alloc, tokens.expect(NAME)?)?;
        let others = self.next_parameters(tokens)?;
        Ok((name, others))
    }

    #[tactic(auto, using(crate::proofs::Expand::parameters_from_void_is))]
    fn parameters_from_void(&self, tokens: &mut Cursor<'_>) -> Result<Items<Parameter>, Stop>
        ensures { Reads (symbol self.now.simple.room the.parameters_from_void tokens.old) result tokens.new }
    {
        let of = TypeName::Void(tokens.expect(key(Word::Void))?.place);
        if tokens.sees(NAME) {
            let (name, others) = self.parameters_from_name(tokens)?;
            Ok(before(self.simple.alloc, Parameter { of, name }, others)?)
        } else {
            Ok(Items::new(self.simple.alloc))
        }
    }

    #[tactic(auto, using(crate::proofs::Expand::parameters_from_value_is))]
    fn parameters_from_value(&self, tokens: &mut Cursor<'_>) -> Result<Items<Parameter>, Stop>
        ensures { Reads (symbol self.now.simple.room the.parameters_from_value tokens.old) result tokens.new }
    {
        let of = self.value_type(tokens)?;
        let (name, others) = self.parameters_from_name(tokens)?;
        Ok(before(self.simple.alloc, Parameter { of, name }, others)?)
    }

    #[tactic(auto, using(crate::proofs::Expand::parameters_is))]
    fn parameters(&self, tokens: &mut Cursor<'_>) -> Result<Items<Parameter>, Stop>
        ensures { Reads (symbol self.now.simple.room the.parameters tokens.old) result tokens.new }
    {
        if begins_type(tokens) {
            if tokens.sees(key(Word::Void)) {
                self.parameters_from_void(tokens)
            } else {
                self.parameters_from_value(tokens)
            }
        } else {
            Ok(Items::new(self.simple.alloc))
        }
    }

    /// Reads the parameters of a function, in parentheses.
    #[tactic(auto, using(crate::proofs::Expand::parameter_list_is))]
    pub fn parameter_list(&self, tokens: &mut Cursor<'_>) -> Result<Items<Parameter>, Stop>
        ensures read { Reads (symbol self.now.simple.room the.parameter_list tokens.old) result tokens.new }
    {
        tokens.expect(sign(Mark::OpenParenthesis))?;
        let parameters = self.parameters(tokens)?;
        tokens.expect(sign(Mark::CloseParenthesis))?;
        Ok(parameters)
    }

    #[tactic(auto, using(crate::proofs::Expand::next_name_is))]
    fn next_name(&self, tokens: &mut Cursor<'_>) -> Result<Identifier, Stop>
        ensures { Reads (symbol self.now.simple.room the.next_name tokens.old) result tokens.new }
    {
        tokens.expect(sign(Mark::Comma))?;
        let name = identifier(self.simple.alloc, tokens.expect(NAME)?)?;
        Ok(name)
    }

    #[tactic(auto, unfolding(cc_expressions::specs::Turns::from))]
    fn next_names(&self, tokens: &mut Cursor<'_>) -> Result<Items<Identifier>, Stop>
        ensures { Reads (loop (symbol self.now.simple.room the.next_name) (mark_kind mark.Comma ∷ []) (length tokens.old) tokens.old) result tokens.new }
    {
        let mut found = Items::new(self.simple.alloc);
        for _turn in 0..tokens.left() {
            if !tokens.sees(sign(Mark::Comma)) {
                return Ok(found);
            }
            found.push(self.next_name(tokens)?)?;
        }
        Ok(found)
    }

    #[tactic(auto, using(crate::proofs::Expand::names_is))]
    fn names(&self, tokens: &mut Cursor<'_>) -> Result<Items<Identifier>, Stop>
        ensures { Reads (symbol self.now.simple.room the.names tokens.old) result tokens.new }
    {
        let first = identifier(self.simple.alloc, tokens.expect(NAME)?)?;
        let others = self.next_names(tokens)?;
        Ok(before(self.simple.alloc, first, others)?)
    }

    #[tactic(auto, using(crate::proofs::Expand::optional_names_is))]
    fn optional_names(&self, tokens: &mut Cursor<'_>) -> Result<Items<Identifier>, Stop>
        ensures { Reads (symbol self.now.simple.room the.optional_names tokens.old) result tokens.new }
    {
        if tokens.sees(NAME) {
            self.names(tokens)
        } else {
            Ok(Items::new(self.simple.alloc))
        }
    }

    /// Reads the names of a body, in parentheses.
    #[tactic(auto, using(crate::proofs::Expand::parameter_names_is))]
    pub fn parameter_names(&self, tokens: &mut Cursor<'_>) -> Result<Items<Identifier>, Stop>
        ensures read { Reads (symbol self.now.simple.room the.parameter_names tokens.old) result tokens.new }
    {
        tokens.expect(sign(Mark::OpenParenthesis))?;
        let names = self.optional_names(tokens)?;
        tokens.expect(sign(Mark::CloseParenthesis))?;
        Ok(names)
    }
}

/// Whether this is `void` without a name.
fn is_void(parameter: &TransactionParameter) -> bool
    ensures { result ≡ trees.is_void parameter.now }
{
    match (&parameter.of, &parameter.name) {
        (TypeName::Void(_), None) => true,
        _ => false,
    }
}

/// The list of these, which is empty where it is one `void` without a name.
fn unless_void(
    alloc: Global,
    first: TransactionParameter,
    others: Items<TransactionParameter>,
) -> Result<Items<TransactionParameter>, AllocError>
    ensures { IfOk result (λ all. all ≡ trees.without_void (first ∷ others)) }
{
    if others.is_empty() && is_void(&first) {
        Ok(Items::new(alloc))
    } else {
        before(alloc, first, others)
    }
}
