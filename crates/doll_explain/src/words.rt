//! What is said of each kind of fault: a table for each part. A sentence goes on from what the fault carries, where it carries
//! something, and says what is wrong; what follows says what to write instead.

use crate::orders::OrderPart;
use doll_commit::Why;
use doll_erb::ErbFault;
use doll_expr::ExprFault;
use doll_lint::fault::LintKind;
use doll_route::RouteFault;
use doll_schema::{Part, SchemaFault};
use doll_set::SetFault;
use doll_types::TypeKind;
use doll_views::Kind;

/// What is wrong, and what to write instead.
#[derive(Clone, Copy)]
pub(crate) struct Words {
    pub(crate) wrong: &'static str,
    pub(crate) instead: &'static str,
}

fn say(wrong: &'static str, instead: &'static str) -> Words {
    Words { wrong, instead }
}

/// What has no words of its own.
pub(crate) fn no_memory() -> Words {
    say("can't be read", "There was no memory for it.")
}

// ---- types

/// Faults of types.
pub(crate) fn type_words(kind: &TypeKind) -> Words {
    match kind {
        TypeKind::MissingTemplate => say(
            "a route renders this template, and it isn't there",
            "Add the file to `views`, or to the folder and its name to `files`, or correct the route's `template`.",
        ),
        TypeKind::UnknownVariable(_) => say(
            " isn't a variable here",
            "A page has the record or the list of its route and the route's `params`.\n\
             A partial has what `render` hands it: `render \"row\", product: product`.",
        ),
        TypeKind::UnknownStep(_) => say(
            " isn't something that can be asked of this value",
            "Of a record: `id`, `updated_at`, and the attributes and associations that the schema gives its model.\n\
             A list has no attributes: go over it with `each`. A text and a number have none.",
        ),
        TypeKind::Mismatch => say(
            "the values don't fit the operator or the question",
            "`+` takes two integers or two texts, `-`, `*` and the orders two of a kind, `==`, `&&` and `||` the same on both sides.\n\
             `size`, `empty?` and `any?` are questions to a list.",
        ),
        TypeKind::NotPrintable => say(
            "a record or a list can't be printed",
            "Print an attribute of the record (`product.name`), the list's `size`, or go over the list with `each`.",
        ),
        TypeKind::NotList => say(
            "this isn't a list",
            "Go over a `has_many` of a record (`product.games.each do |game|`), or over the list of a route.",
        ),
        TypeKind::BadKey => say(
            "this can't be a part of a key",
            "A part is a path to a record (`cache product`), a variable with one value, or a text as it stands.\n\
             For a list give the record that its records touch; for an attribute give its record.",
        ),
    }
}

// ---- the lint

/// Faults of the lint.
pub(crate) fn lint_words(kind: &LintKind) -> Words {
    match kind {
        LintKind::Uncovered(_) => say(
            " isn't covered by this block's key",
            "A change of it leaves the key as it is, so the fragment goes stale.\n\
             Give the key a part for it (`cache [game, game.product] do`), or read it outside of the block.",
        ),
        LintKind::NoTouch(_) => say(
            " isn't covered by this block's key: its records don't touch the one in the key",
            "A record that comes, changes or goes leaves the key as it is, so the fragment goes stale.\n\
             Give their `belongs_to` a `\"touch\": true`, or go over the list outside of the block, each with a key of its own.",
        ),
        LintKind::SharedKey { .. } => say(
            "this block may have the same key as another one of this template",
            "The one that comes second shows what the first one stored.\n\
             Give one of them a word of its own (`cache [product, :price] do`), or make one block of the two.",
        ),
        LintKind::OutsideVariable(_) => say(
            " isn't in this block's key",
            "What is stored for one value of it is shown for every other.\n\
             Put it into the key (`cache [product, unit] do`), or use it outside of the block. A list is no part of a key: go over it outside.",
        ),
    }
}

// ---- templates

/// Why a text is no template.
pub(crate) fn template_words(fault: ErbFault) -> Words {
    match fault {
        ErbFault::UnclosedTag { .. } => say("this tag isn't closed", "End it with `%>`."),
        ErbFault::UnknownTag { .. } => say(
            "`<%-` opens no tag here",
            "Write `<%`. To drop the line end behind a tag, close it with `-%>`.",
        ),
        ErbFault::StrayEnd { .. } => say(
            "no open block has a place for this",
            "`elsif` and `else` stand inside of an `if`, before its `else`; `end` closes an `if`, an `each` or a `cache`.",
        ),
        ErbFault::MissingEnd { .. } => say("this block isn't closed", "Add `<% end %>` behind it."),
        ErbFault::BadExpr { fault, .. } => expression_words(fault),
        ErbFault::TooDeep { .. } => say(
            "this is the 65th open block",
            "At most 64 may be open at once: move the inner ones into a partial.",
        ),
        ErbFault::Memory => no_memory(),
    }
}

/// Why the content of a tag is no sentence.
fn expression_words(fault: ExprFault) -> Words {
    match fault {
        ExprFault::Unexpected { .. } => say(
            "the tag can't go on with this",
            "A tag has an expression, `if`, `elsif`, `else`, `end`, `LIST.each do |name|`, `cache KEY do` or `render`.\n\
             There are no helpers, no assignments and no ternaries.",
        ),
        ExprFault::Unclosed { .. } => say(
            "this isn't closed",
            "Close the text with the mark that opened it, the parenthesis with `)`.",
        ),
        ExprFault::NumberTooLarge { .. } => say(
            "this number is too large",
            "Whole numbers go up to 9223372036854775807.",
        ),
        ExprFault::TooDeep { .. } => say(
            "this tag is too long",
            "A tag has at most 200 words and marks: make more tags of it, or a partial.",
        ),
        ExprFault::Memory => no_memory(),
    }
}

/// Why files are no set of templates.
pub(crate) fn set_words(fault: &SetFault) -> Words {
    match fault {
        SetFault::TooMany { .. } => say("there are too many templates", "A site has at most 512."),
        SetFault::BadName { .. } => say(
            "this isn't the name of a template",
            "Write one to eight words in lower case, joined by `/`, and `.html.erb`: `products/show.html.erb`.\n\
             A partial has `_` before its last word: `products/_row.html.erb`.",
        ),
        SetFault::Duplicate { .. } => say(
            "this template is there twice",
            "Name it once, in `views` or in `files`.",
        ),
        SetFault::TooLong { .. } => say(
            "this template is too long",
            "A source has at most 262144 bytes: move parts of it into partials.",
        ),
        SetFault::BadTemplate { fault, .. } => template_words(*fault),
        SetFault::MissingPartial { .. } => say(
            "the partial that this tag names isn't there",
            "`render \"row\"` means the file `_row.html.erb` in the folder of this template, `render \"games/row\"` `games/_row.html.erb`.",
        ),
        SetFault::Cycle { .. } => say(
            "this template leads back to itself",
            "A partial can't render, at any depth, a template that renders it.",
        ),
        SetFault::DepthOver { .. } => say(
            "partials are nested too deep from here",
            "A chain of templates, each rendering the next, has at most 16.",
        ),
        SetFault::TooWide { .. } => say(
            "this template renders too much",
            "Its tags and texts and those of what it renders are at most 100000, a partial counted at each tag.",
        ),
        SetFault::Clash { .. } => say(
            "two templates have the same digest",
            "Change one of them, by a space in a comment or the like.",
        ),
        SetFault::Memory => no_memory(),
    }
}

/// Why a file isn't read.
pub(crate) fn file_words(kind: Kind) -> Words {
    match kind {
        Kind::Missing => say(
            "this file isn't there",
            "The names of `files` are looked up in the folder in which the program runs, below it alone.",
        ),
        _ => say("this file isn't UTF-8", "Save it as UTF-8."),
    }
}

/// Why what a bundle says of its files isn't read.
pub(crate) fn listing_words() -> Words {
    say(
        "isn't of the form",
        "`views` is an object from names to sources, each a text: {\"products/show.html.erb\": \"<p>..</p>\"}.\n\
         `files` is an array of names: [\"products/show.html.erb\"].",
    )
}

/// What is too long.
pub(crate) fn too_long_words() -> Words {
    say(
        "this is too long",
        "The bundle and each file of `files` have at most 16777216 bytes.",
    )
}

// ---- the schema

/// Why a JSON value is no schema.
pub(crate) fn schema_words(fault: SchemaFault) -> Words {
    match fault {
        SchemaFault::BadForm { at } => form_words(at.part),
        SchemaFault::TooMany { at } => many_words(at.part),
        SchemaFault::UnknownKind { .. } => say(
            "isn't one of integer, text, boolean",
            "A time is `updated_at`, which each record has; other kinds aren't there.",
        ),
        SchemaFault::DuplicateName { .. } => say(
            "stands before",
            "Two models have other names and other plurals.\n\
             Within a model attributes, associations and foreign keys (`product_id`) have other names.",
        ),
        SchemaFault::UnknownModel { .. } => say(
            "isn't the name of a model",
            "Write the `name` of a model of this schema, in the singular.",
        ),
        SchemaFault::BadInverse { .. } => say(
            "isn't a free `belongs_to` of the other model to this one",
            "The `inverse` of a `has_many` is the name of the children's `belongs_to`, and no other `has_many` has it.",
        ),
        SchemaFault::Memory => no_memory(),
    }
}

/// A part of a schema that isn't of its form.
fn form_words(part: Part) -> Words {
    match part {
        Part::Whole => say(
            "isn't of the form",
            "A schema is {\"models\": [..]}, and a model {\"name\": .., \"plural\": .., \"attributes\": [..]}\n\
             with `belongs_to` and `has_many` where it has some, and no other key.",
        ),
        Part::Name | Part::Plural => say(
            "isn't a name",
            "A name begins with a lower-case letter and goes on with such, digits and `_`, 40 bytes at most.\n\
             Words with a meaning in templates, as `end` or `size`, are none.",
        ),
        Part::Attributes => say(
            "isn't of the form of an attribute",
            "Write {\"name\": \"price\", \"kind\": \"integer\"}, with \"null\": false where it may not be nil, and no other key.",
        ),
        Part::BelongsTo => say(
            "isn't of the form of a `belongs_to`",
            "Write {\"name\": \"product\", \"model\": \"product\", \"touch\": true}; `touch` and `null` are false where they aren't said.",
        ),
        Part::HasMany => say(
            "isn't of the form of a `has_many`",
            "Write {\"name\": \"games\", \"model\": \"game\", \"inverse\": \"product\"}, and \"dependent\": \"destroy\" or \"restrict\" where you like.",
        ),
    }
}

/// A part of a schema that has too many.
fn many_words(part: Part) -> Words {
    match part {
        Part::Attributes => say("is one too many", "A model has at most 32 attributes."),
        Part::BelongsTo => say("is one too many", "A model has at most 8 `belongs_to`."),
        Part::HasMany => say("is one too many", "A model has at most 8 `has_many`."),
        Part::Whole | Part::Name | Part::Plural => {
            say("is one too many", "A schema has at most 32 models.")
        }
    }
}

// ---- routes

/// Why a JSON value isn't the routes of a site.
pub(crate) fn route_words(fault: RouteFault) -> Words {
    match fault {
        RouteFault::BadForm { .. } => say(
            "isn't of the form of a route",
            "Write {\"path\": \"/products/:id\", \"template\": \"products/show\", \"record\": \"product\"}, or with \"list\" for all records;\n\
             \"params\" is an array of names. There is no other key.",
        ),
        RouteFault::BadPath { .. } => say(
            "isn't the path of such a route",
            "A path is `/` or words of lower case, each behind a `/`; `/:id` stands at its end exactly where the route has a `record`.",
        ),
        RouteFault::Reserved { .. } => say(
            "is reserved",
            "The site itself answers under `/commit`, `/deploy` and `/journal`.",
        ),
        RouteFault::UnknownModel { .. } => say(
            "isn't the name of a model",
            "Write the `name` of a model of the schema, in the singular, also for a `list`.",
        ),
        RouteFault::Duplicate { .. } => say(
            "has a path or a variable that stands before",
            "Each route has a path of its own, and its record or list and its `params` are other names.",
        ),
        RouteFault::TooMany { .. } => say(
            "is one too many, or has too many `params`",
            "A site has at most 256 routes, and a route at most 8 `params`.",
        ),
        RouteFault::Memory => no_memory(),
    }
}

// ---- commits

/// Why a change is refused.
pub(crate) fn why_words(why: Why) -> Words {
    match why {
        Why::UnknownModel => say(
            "there is no such model",
            "Write the `name` of a model of the schema, in the singular.",
        ),
        Why::UnknownAttribute => say(
            "a value is given for what is neither an attribute nor a foreign key",
            "Write names of the schema; a parent is given by its key, as \"product_id\": 1.",
        ),
        Why::WrongKind => say(
            "a value isn't of the kind that the schema says",
            "An attribute takes what its `kind` says, a foreign key a whole number.",
        ),
        Why::NullRefused => say(
            "a value is nil that may not be",
            "Give a value to each attribute with \"null\": false and each `belongs_to` without \"null\": true.",
        ),
        Why::MissingRow => say(
            "there is no such record",
            "Ids are given in order from 1, of each model by itself, and an id that went isn't given again.",
        ),
        Why::BadParent => say(
            "a foreign key names a record that isn't there",
            "Create the parent first, in this commit or an earlier one.",
        ),
        Why::Restricted => say(
            "a record that stays names one that would go",
            "Remove its children first, or give the `has_many` a \"dependent\": \"destroy\".",
        ),
        Why::IdsEnded => say(
            "all ids of this model were given",
            "A model has 4294967295 ids.",
        ),
        Why::TooManyChanges => say(
            "the commit is too long",
            "A commit has at most 1000 changes.",
        ),
    }
}

/// Why a commit is refused as a whole.
pub(crate) fn commit_words(kind: Kind) -> Words {
    match kind {
        Kind::MomentsEnded => say(
            "no moment comes after the last commit's",
            "Moments are microseconds up to 9223372036854775807.",
        ),
        Kind::HistoryFull => say("the history is full", "It has at most 4000000 commits."),
        _ => say(
            "isn't of the form",
            "`commits` is an array of {\"at\": 10, \"changes\": [..]}, where `at` may be left out, and a change is one of\n\
             {\"create\": MODEL, \"values\": {..}}, {\"update\": MODEL, \"id\": 1, \"values\": {..}},\n\
             {\"destroy\": MODEL, \"id\": 1} and {\"touch\": MODEL, \"id\": 1}.",
        ),
    }
}

// ---- the bundle

/// Why an input is no bundle.
pub(crate) fn bundle_words() -> Words {
    say(
        "isn't a bundle",
        "A bundle is a JSON object with the key `schema`, and `routes`, `views`, `files`, `settings`, `commits` and `script` where it\n\
         has some, and no other key.",
    )
}

/// Why an input is no JSON.
pub(crate) fn json_words() -> Words {
    say(
        "this isn't JSON",
        "Look for a comma, a quote or a bracket that is missing, or one too many, here or before.",
    )
}

/// Settings that are no object.
pub(crate) fn settings_words() -> Words {
    say(
        "isn't an object",
        "`settings` is an object such as {\"expires_in\": 60000000, \"max_entries\": 1000}.",
    )
}

/// A key that is no setting's.
pub(crate) fn other_words() -> Words {
    say(
        "isn't a setting",
        "The settings are `expires_in`, `race_condition_ttl`, `max_entries`, `max_size`, `max_age`, `expiry_batch_size`,\n\
         `shards` and `workers`.",
    )
}

/// What may stand under the key of a setting, where it is one's.
pub(crate) fn setting_words(key: &str) -> Option<Words> {
    if key == "shards" || key == "workers" {
        return Some(part_words(key));
    }
    if key == "max_entries" || key == "max_size" {
        return Some(count_words(key));
    }
    if key == "expiry_batch_size" {
        return Some(say(
            "isn't a whole number from 1 to 10000",
            "As many entries are removed at once. They are 100 where it isn't said.",
        ));
    }
    time_words(key)
}

/// A setting that is a time.
fn time_words(key: &str) -> Option<Words> {
    if key == "race_condition_ttl" {
        return Some(say(
            "isn't a whole number from 0 to 4611686018427387904",
            "A time in microseconds: for so long, and 0 where it isn't said, an entry that has expired may be renewed.",
        ));
    }
    if key == "expires_in" {
        return Some(say(
            "isn't a whole number from 0 to 4611686018427387904, nor null",
            "A time in microseconds (a minute is 60000000) after which an entry expires. With null, and where it isn't said, none does.",
        ));
    }
    if key == "max_age" {
        return Some(say(
            "isn't a whole number from 0 to 4611686018427387904, nor null",
            "A time in microseconds: the age at which an entry is removed. It is two weeks where it isn't said, and with null none is.",
        ));
    }
    None
}

/// A setting that limits how much the cache keeps.
fn count_words(key: &str) -> Words {
    let wrong = "isn't a whole number from 1 to 18446744073709551615, nor null";
    if key == "max_size" {
        return say(
            wrong,
            "The most bytes of keys and fragments that are kept. With null, and where it isn't said, there is no limit.",
        );
    }
    say(
        wrong,
        "The most entries that are kept. With null, and where it isn't said, there is no limit.",
    )
}

/// A setting that shares the work out.
fn part_words(key: &str) -> Words {
    let wrong = "isn't a whole number from 1 to 64";
    if key == "shards" {
        return say(
            wrong,
            "In so many parts is the cache. They are 4 where it isn't said.",
        );
    }
    say(
        wrong,
        "So many requests are answered at once. They are 4 where it isn't said.",
    )
}

// ---- the script

/// A script that is no array.
pub(crate) fn script_words() -> Words {
    say(
        "isn't an array",
        "`script` is an array of lines, each a text: [\"get /products/1\", \"expire\"].",
    )
}

/// A line of a script that is no text.
pub(crate) fn line_words() -> Words {
    say(
        "isn't a text",
        "A line of a script is a text, such as \"get /products/1\".",
    )
}

/// A session that an `open` begins while its page is still on the way.
pub(crate) fn open_words() -> Words {
    say(
        "this session is open already",
        "A session is open from its `open` until its page comes, with a `run` or the last `turn` of it.\n\
         Let it come to its page first, or give this one another number.",
    )
}

/// A session that takes a turn without being open.
pub(crate) fn closed_words() -> Words {
    say(
        "this session isn't open",
        "A session is open from its `open` until its page comes. An `open` that is answered with a status opens none.",
    )
}

/// A line that is empty.
pub(crate) fn empty_words() -> Words {
    say("this line is empty", "Each line of a script is an order.")
}

/// A line that begins with no order's word.
pub(crate) fn order_words() -> Words {
    say(
        "isn't an order",
        "An order begins with its word in lower case, and a space behind it where more follows.",
    )
}

/// A space that isn't one between two words.
pub(crate) fn blank_words() -> Words {
    say(
        "this space is one too many",
        "One space stands between two words, and none before the first or behind the last.",
    )
}

/// What stands behind a whole order.
pub(crate) fn much_words() -> Words {
    say(
        "is too much",
        "Nothing stands behind this order. A path has no space: in a query it is written `+`.",
    )
}

/// A line that ends before a part of its order.
pub(crate) fn lost_words(part: OrderPart) -> Words {
    match part {
        OrderPart::Time => say(
            "a time is missing here",
            "A time is a whole number of microseconds.",
        ),
        OrderPart::Session => say(
            "the number of a session is missing here",
            "The sessions of a script have the numbers 1 to 1000.",
        ),
        OrderPart::Path => say(
            "a path is missing here",
            "A path is that of a page, such as `/products/1`.",
        ),
        OrderPart::Seen => seen_words(),
    }
}

/// A number with a zero before it.
pub(crate) fn zero_words() -> Words {
    say(
        "has a zero before it",
        "Numbers are decimal, without a zero before them.",
    )
}

/// What isn't the number of a session.
pub(crate) fn session_words() -> Words {
    say(
        "isn't the number of a session",
        "The sessions of a script have the numbers 1 to 1000.",
    )
}

/// What is no time: digits that are too many, or other characters.
pub(crate) fn number_words(is_number: bool) -> Words {
    if is_number {
        return say(
            "is too late",
            "A time is a number of microseconds, at most 18446744073709551615.",
        );
    }
    say(
        "isn't a time",
        "A time is a whole number of microseconds, in decimal digits without a sign.",
    )
}

/// What is no path.
pub(crate) fn slash_words() -> Words {
    say(
        "isn't a path",
        "A path begins with a slash, as `/products/1` does.",
    )
}

/// What stands in the place of `seen`.
pub(crate) fn seen_words() -> Words {
    say(
        "isn't `seen`",
        "Behind the path of an `open` may stand `seen` and a moment, that of a page which the visitor has seen.",
    )
}

/// What the changes of a commit are.
const CHANGES: &str = "\
The changes are a JSON array; each is one of {\"create\": MODEL, \"values\": {..}}, {\"update\": MODEL, \"id\": 1, \"values\": {..}},
{\"destroy\": MODEL, \"id\": 1} and {\"touch\": MODEL, \"id\": 1}.";

/// A `commit` without changes.
pub(crate) fn no_changes_words() -> Words {
    say("the changes are missing here", CHANGES)
}

/// Changes that are no array.
pub(crate) fn list_words() -> Words {
    say("this isn't an array", CHANGES)
}

/// An item that is no change.
pub(crate) fn change_words() -> Words {
    say("isn't a change", CHANGES)
}

/// The words that an order may begin with, each with the form of its order.
pub(crate) const FORMS: [(&str, &str); 7] = [
    ("now", "now MICROSECONDS"),
    ("commit", "commit CHANGES"),
    ("open", "open SESSION PATH"),
    ("turn", "turn SESSION"),
    ("run", "run SESSION"),
    ("get", "get PATH"),
    ("expire", "expire"),
];

/// The forms of orders, with what they do.
pub(crate) const ORDERS: &str = "
The orders are:
  now MICROSECONDS               the clock shows this time
  commit CHANGES                 these changes are made: commit [{\"touch\": \"product\", \"id\": 1}]
  open SESSION PATH              a session begins with the page of a path
  open SESSION PATH seen MOMENT  the same for a visitor who has seen the page of this moment
  turn SESSION                   a session takes one turn
  run SESSION                    a session takes turns until its page comes
  get PATH                       the page of a path is rendered at once
  expire                         a batch of old entries is removed";

// ---- paths

/// A path that no route has.
pub(crate) fn path_words() -> Words {
    say(
        "isn't the path of a page",
        "A page's path is that of a route, with a record's id in the place of `:id`.",
    )
}

/// A path whose record isn't there.
pub(crate) fn record_words() -> Words {
    say(
        "is the path of a record that isn't there",
        "No record of this model has this id once the bundle's commits are made.",
    )
}
