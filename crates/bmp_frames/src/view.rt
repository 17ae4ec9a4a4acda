ghost use Rattle.std.specs.Prelude.{◌≡◌, ◌↔◌, ℕ, List, IsTrue, IfSome, IfNone};
ghost use Rattle.bmp_specs.specs.PeerText.{view_text, IsViewText};
ghost use Rattle.bmp_specs.specs.declared.peers.View.{View};

use bmp_specs::View;
use ip_prefix::ShortText;

/// The text of a view, as queries and replies write it.
pub trait ViewText {
    /// The text.
    ghost words: { Self → List ℕ };

    /// Gives `adj-in-pre`, `adj-in-post`, `adj-out-pre`, `adj-out-post` or `loc`.
    fn text(&self) -> ShortText
        ensures { result ≡ words self.now };
}

// The word for a view.
fn word(view: View) -> &'static str
    ensures { result.now ≡ view_text view }
{
    match view {
        View::InPre => "adj-in-pre",
        View::InPost => "adj-in-post",
        View::OutPre => "adj-out-pre",
        View::OutPost => "adj-out-post",
        View::Loc => "loc",
    }
}

impl ViewText for View {
    ghost words = { view_text };

    fn text(&self) -> ShortText
        ensures { result ≡ view_text self.now }
    {
        let mut text = ShortText::new();
        text.extend(word(*self).as_bytes());
        text
    }
}

// Whether the text is the view's word.
fn is_word(text: &[u8], view: View) -> bool
    ensures { IsTrue result ↔ IsViewText text.now view }
{
    text == word(view).as_bytes()
}

/// Reads the word for a view, as the one view that it names. None exactly where the text is none of the
/// five.
pub fn parse_view(text: &[u8]) -> Option<View>
    ensures some { IfSome result (λ v. IsViewText text.now v) }
    ensures only { IfSome result (λ v. (w : View) → IsViewText text.now w → w ≡ v) }
    ensures none { IfNone result ((v : View) → IsViewText text.now v → ⊥) }
{
    if is_word(text, View::InPre) {
        return Some(View::InPre);
    }
    if is_word(text, View::InPost) {
        return Some(View::InPost);
    }
    if is_word(text, View::OutPre) {
        return Some(View::OutPre);
    }
    if is_word(text, View::OutPost) {
        return Some(View::OutPost);
    }
    if is_word(text, View::Loc) {
        return Some(View::Loc);
    }
    None
}
