//! How the explanations of small sites are made.

use doll_explain::{Answer, Answered, explain};
use doll_text::Memory;
use std::alloc::Global;

/// Products with their games, whose changes don't touch them.
pub const MODELS: &str =
    r#""schema":{"models":[{"name":"product","plural":"products","attributes":[{"name":"name","kind":"text"},{"name":"price","kind":"integer"}],"has_many":[{"name":"games","model":"game","inverse":"product"}]},{"name":"game","plural":"games","attributes":[{"name":"name","kind":"text"}],"belongs_to":[{"name":"product","model":"product"}]}]}"#;

/// Their pages.
pub const ROUTES: &str =
    r#""routes":[{"path":"/products/:id","template":"products/show","record":"product"},{"path":"/games","template":"games/index","list":"game"}]"#;

/// Their templates but that of a product.
pub const VIEWS: &str = r#""games/index.html.erb":"<p></p>""#;

/// The explanation of an answer to an input.
fn of_input<'a>(
    alloc: Global,
    answer: Answer,
    input: &'a [u8],
    path: &'a str,
) -> Result<String, Memory> {
    let answered = Answered {
        input,
        files: &[],
        missed: None,
        readings: &[],
        path: Some(path),
    };
    explain(alloc, answer, answered)
}

/// That of an answer to an input with these parts.
pub fn explained(
    alloc: Global,
    answer: Answer,
    parts: &[&str],
    path: &str,
) -> Result<String, Memory> {
    let mut input = Vec::new(alloc);
    for part in parts {
        input.extend_from_slice(part.as_bytes())?;
    }
    of_input(alloc, answer, input.as_slice(), path)
}

/// That of an answer to a site with this template of a product's page, as JSON writes it.
pub fn of_template(alloc: Global, answer: Answer, show: &str) -> Result<String, Memory> {
    let parts = [
        "{",
        MODELS,
        ",",
        ROUTES,
        ",\"views\":{",
        VIEWS,
        ",\"products/show.html.erb\":\"",
        show,
        "\"}}",
    ];
    explained(alloc, answer, parts.as_slice(), "")
}

/// The first line of a text, without its end.
pub fn first_line(text: &str) -> &[u8] {
    let bytes = text.as_bytes();
    for (at, byte) in bytes.iter().enumerate() {
        if *byte == b'\n' {
            return &bytes[..at];
        }
    }
    bytes
}
