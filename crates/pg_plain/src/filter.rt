// The filter of a queue.
ghost use Rattle.std.specs.Prelude.{◌≡◌, ◌↔◌, [], IfOk, IfErr, IsTrue, Some};
ghost use Rattle.pg_parse.specs.Filters.{IsCause};
ghost use Rattle.pg_eval.specs.Matching.{IsMatchBy};
ghost use Rattle.pg_model.specs.Routing.{HasReading, text_of};
ghost use Rattle.pg_plain.specs.Filtering.{IsUnread};

use pg_bytes::Text;
use pg_eval::matches;
use pg_msg::Property;
use pg_parse::{FilterError, Tree, parse};
use std::alloc::Global;
use std::marker::Model;

// The text of a filter, which is empty where there is none, and the tree that it is read as.
pub(crate) struct Filter {
    text: Text,
    tree: Option<Tree>,
}

impl Model for Filter {
    ghost use Rattle.std.specs.Prelude.{ℕ, List};
    ghost use Rattle.pg_parse.specs.FilterTexts.{ReadsAs};

    ghost Value = { List ℕ };

    ghost view = { λ filter. filter.text };

    ghost invariant = { λ filter. ReadsAs filter.text filter.tree };
}

impl Drop for Filter {
    fn drop(self) {
        let Filter {
            text: _text,
            tree: _tree,
        } = self;
    }
}

impl Filter {
    // The filter that a command asks for, or none. BadFilter comes exactly where the text has no reading.
    pub(crate) fn asked(alloc: Global, text: Option<Text>) -> Result<Filter, FilterError>
        ensures text { IfOk result (λ filter. filter ≡ text_of text) }
        ensures read { IfOk result (λ filter. HasReading text) }
        ensures refused { IfErr result (λ e. IsUnread text e) }
    {
        match text {
            Some(text) => Filter::read(alloc, text),
            None => Ok(Filter::none(alloc)),
        }
    }

    fn none(alloc: Global) -> Filter
        ensures { result ≡ [] }
    {
        Filter {
            text: Text::from_string(String::new(alloc)),
            tree: None,
        }
    }

    fn read(alloc: Global, text: Text) -> Result<Filter, FilterError>
        ensures text { IfOk result (λ filter. filter ≡ text) }
        ensures read { IfOk result (λ filter. HasReading (Some text)) }
        ensures refused { IfErr result (λ e. IsCause text e) }
    {
        let tree = parse(alloc, text.as_str())?;
        Ok(Filter {
            text,
            tree: Some(tree),
        })
    }

    // Whether a message with these properties matches the filter.
    pub(crate) fn takes(&self, properties: &[Property]) -> bool
        ensures { IsMatchBy self.now properties.now result }
    {
        matches(self.tree.as_ref(), properties)
    }

    // Whether the texts are equal.
    pub(crate) fn same(&self, other: &Filter) -> bool
        ensures { IsTrue result ↔ (self.now ≡ other.now) }
    {
        self.text == other.text
    }
}
