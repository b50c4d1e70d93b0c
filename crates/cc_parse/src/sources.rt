//! Readers of items, of which a text is made.

ghost use Rattle.cc_expressions.specs.Steps.{Reads};
ghost use Rattle.cc_grammar.specs.Begins.{item_starts};
ghost use Rattle.cc_grammar.specs.Reading.{loop, symbol};
ghost use Rattle.cc_grammar.specs.Symbols as the;
ghost use Rattle.std.specs.Prelude.{◌≡◌, length};

use crate::declarations::Declarations;
use crate::nesting::{assign, statement};
use crate::statements::Statements;
use cc_expressions::{Cursor, NAME, Operands, Simple, Stop, begins_item, identifier, key, sign};
use cc_grammar::{Entry, Function, Item, Tree, TypeName};
use cc_lex::{Mark, Word};
use sqlite_items::Items;

/// What each reader of items is given.
#[derive(Clone, Copy)]
pub struct Sources {
    pub simple: Simple,
}

impl Sources {
    fn declarations(&self) -> Declarations
        ensures { result.simple ≡ self.now.simple }
    {
        Declarations {
            simple: self.simple,
        }
    }

    #[tactic(auto, using(crate::proofs::Expand::block_is))]
    fn block(&self, tokens: &mut Cursor<'_>) -> Result<Items<Entry>, Stop>
        ensures { Reads (symbol self.now.simple.room the.block tokens.old) result tokens.new }
    {
        let operands = Operands {
            simple: self.simple,
            assign,
        };
        Statements {
            operands,
            statement,
        }
        .block(tokens)
    }

    #[tactic(auto, using(crate::proofs::Expand::function_is))]
    fn function(&self, tokens: &mut Cursor<'_>) -> Result<Function, Stop>
        ensures { Reads (symbol self.now.simple.room the.function tokens.old) result tokens.new }
    {
        let name = identifier(self.simple.alloc, tokens.expect(NAME)?)?;
        let parameters = self.declarations().parameter_list(tokens)?;
        let block = self.block(tokens)?;
        Ok(Function {
            name,
            parameters,
            block,
        })
    }

    #[tactic(auto, using(crate::proofs::Expand::typed_function_is))]
    fn typed_function(&self, tokens: &mut Cursor<'_>) -> Result<Item, Stop>
        ensures { Reads (symbol self.now.simple.room the.typed_function tokens.old) result tokens.new }
    {
        let result = self.declarations().simple_type(tokens)?;
        let function = self.function(tokens)?;
        Ok(Item::Function {
            result: Some(result),
            function,
        })
    }

    #[tactic(auto, using(crate::proofs::Expand::structure_is))]
    fn structure(&self, tokens: &mut Cursor<'_>) -> Result<Item, Stop>
        ensures { Reads (symbol self.now.simple.room the.structure tokens.old) result tokens.new }
    {
        let place = tokens.expect(key(Word::Struct))?.place;
        let name = identifier(self.simple.alloc, tokens.expect(NAME)?)?;
        if tokens.sees(sign(Mark::OpenBrace)) {
            let fields = self.declarations().fields(tokens)?;
            Ok(Item::Structure { name, fields })
        } else {
            let function = self.function(tokens)?;
            Ok(Item::Function {
                result: Some(TypeName::Structure(place, name)),
                function,
            })
        }
    }

    #[tactic(auto, using(crate::proofs::Expand::enumeration_is))]
    fn enumeration(&self, tokens: &mut Cursor<'_>) -> Result<Item, Stop>
        ensures { Reads (symbol self.now.simple.room the.enumeration tokens.old) result tokens.new }
    {
        let place = tokens.expect(key(Word::Enum))?.place;
        if tokens.sees(sign(Mark::OpenBrace)) {
            let constants = self.declarations().constants(tokens)?;
            Ok(Item::Enumeration {
                name: None,
                constants,
            })
        } else {
            let name = identifier(self.simple.alloc, tokens.expect(NAME)?)?;
            if tokens.sees(sign(Mark::OpenBrace)) {
                let constants = self.declarations().constants(tokens)?;
                Ok(Item::Enumeration {
                    name: Some(name),
                    constants,
                })
            } else {
                let function = self.function(tokens)?;
                Ok(Item::Function {
                    result: Some(TypeName::Enumeration(place, name)),
                    function,
                })
            }
        }
    }

    #[tactic(auto, using(crate::proofs::Expand::specification_is))]
    fn specification(&self, tokens: &mut Cursor<'_>) -> Result<Item, Stop>
        ensures { Reads (symbol self.now.simple.room the.specification tokens.old) result tokens.new }
    {
        tokens.expect(key(Word::Spec))?;
        let name = identifier(self.simple.alloc, tokens.expect(NAME)?)?;
        let parameters = self.declarations().signature(tokens)?;
        let transactions = self.declarations().specification_end(tokens)?;
        Ok(Item::Specification {
            name,
            parameters,
            transactions,
        })
    }

    #[tactic(auto, using(crate::proofs::Expand::body_is))]
    fn body(&self, tokens: &mut Cursor<'_>) -> Result<Item, Stop>
        ensures { Reads (symbol self.now.simple.room the.body tokens.old) result tokens.new }
    {
        tokens.expect(key(Word::Body))?;
        let name = identifier(self.simple.alloc, tokens.expect(NAME)?)?;
        let names = self.declarations().parameter_names(tokens)?;
        let block = self.block(tokens)?;
        Ok(Item::Body { name, names, block })
    }

    #[tactic(auto, using(crate::proofs::Expand::process_is))]
    fn process(&self, tokens: &mut Cursor<'_>) -> Result<Item, Stop>
        ensures { Reads (symbol self.now.simple.room the.process tokens.old) result tokens.new }
    {
        let place = tokens.expect(key(Word::Process))?.place;
        if tokens.sees(key(Word::Spec)) {
            self.specification(tokens)
        } else if tokens.sees(key(Word::Body)) {
            self.body(tokens)
        } else {
            let name = identifier(self.simple.alloc, tokens.expect(NAME)?)?;
            let function = self.function(tokens)?;
            Ok(Item::Function {
                result: Some(TypeName::Process(place, name)),
                function,
            })
        }
    }

    #[tactic(auto, using(crate::proofs::Expand::item_is))]
    fn item(&self, tokens: &mut Cursor<'_>) -> Result<Item, Stop>
        ensures { Reads (symbol self.now.simple.room the.item tokens.old) result tokens.new }
    {
        if tokens.sees(key(Word::Struct)) {
            self.structure(tokens)
        } else if tokens.sees(key(Word::Enum)) {
            self.enumeration(tokens)
        } else if tokens.sees(key(Word::Process)) {
            self.process(tokens)
        } else if tokens.at(&[
            key(Word::Void),
            key(Word::Char),
            key(Word::Int),
            key(Word::Long),
        ]) {
            self.typed_function(tokens)
        } else {
            let function = self.function(tokens)?;
            Ok(Item::Function {
                result: None,
                function,
            })
        }
    }

    #[tactic(auto, unfolding(cc_expressions::specs::Turns::from))]
    fn items(&self, tokens: &mut Cursor<'_>) -> Result<Items<Item>, Stop>
        ensures { Reads (loop (symbol self.now.simple.room the.item) item_starts (length tokens.old) tokens.old) result tokens.new }
    {
        let mut found = Items::new(self.simple.alloc);
        for _turn in 0..tokens.left() {
            if !begins_item(tokens) {
                return Ok(found);
            }
            found.push(self.item(tokens)?)?;
        }
        Ok(found)
    }

    /// Reads a whole text.
    #[tactic(auto, using(crate::proofs::Expand::text_is))]
    pub fn text(&self, tokens: &mut Cursor<'_>) -> Result<Tree, Stop>
        ensures read { Reads (symbol self.now.simple.room the.text tokens.old) result tokens.new }
    {
        let items = self.items(tokens)?;
        Ok(Tree { items })
    }
}
