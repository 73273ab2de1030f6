//! The forms of text, and after which words a number in one is that of an item, a queue or a caller.
ghost use Rattle.std.specs.Prelude.{◌≡◌};
ghost use Rattle.std.specs.List.{list_any};
ghost use Rattle.cmwq_names.specs.Headings.{caller_headings, is_after, is_heading, item_headings, kind_after};
ghost use Rattle.cmwq_names.specs.Headings.{queue_headings};

use crate::kind::Kind;

/// The form of a text.
#[derive(Clone, Copy, Debug, PartialEq, Eq)]
pub enum Form {
    /// Lines of words.
    Plain,
    /// JSON, with the names in its strings.
    Json,
    /// XML, with the names in its text.
    Xml,
}

/// Whether the words end with one of these headings.
pub(crate) fn is_after(words: &[u8], headings: &[&str]) -> bool
    ensures { result ≡ list_any (λ heading. is_heading words.now heading.now) headings.now }
{
    headings
        .iter()
        .any(|heading| words.ends_with(heading.as_bytes()))
}

/// Whether the number of an item follows these words.
fn is_before_item(form: Form, words: &[u8]) -> bool
    ensures { result ≡ is_after words.now (item_headings form) }
{
    match form {
        Form::Plain => is_after(words, &["item ", "flush_delayed ", "cancel_sync "]),
        Form::Json => is_after(words, &["item "]),
        Form::Xml => is_after(words, &["<title>item "]),
    }
}

/// Whether the number of a queue follows these words.
fn is_before_queue(form: Form, words: &[u8]) -> bool
    ensures { result ≡ is_after words.now (queue_headings form) }
{
    match form {
        Form::Plain => is_after(words, &["queue ", "flush ", "drain ", "destroy "]),
        Form::Json => is_after(words, &["\"queue "]),
        Form::Xml => is_after(words, &["\">q"]),
    }
}

/// Whether the number of a caller follows these words.
fn is_before_caller(form: Form, words: &[u8]) -> bool
    ensures { result ≡ is_after words.now (caller_headings form) }
{
    match form {
        Form::Plain => is_after(words, &["caller c"]),
        Form::Json => is_after(words, &["\"c"]),
        Form::Xml => is_after(words, &["\">c", "<title>c"]),
    }
}

/// Of what the number is that follows these words in a text.
pub(crate) fn kind_after(form: Form, words: &[u8]) -> Option<Kind>
    ensures { result ≡ kind_after form words.now }
{
    if is_before_item(form, words) {
        Some(Kind::Item)
    } else if is_before_queue(form, words) {
        Some(Kind::Queue)
    } else if is_before_caller(form, words) {
        Some(Kind::Caller)
    } else {
        None
    }
}
