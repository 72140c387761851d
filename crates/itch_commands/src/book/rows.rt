//! The lines of a book, in each form.
ghost use Rattle.std.specs.Prelude.{◌≡◌, ◌≤◌, [], ◌∷◌, length};
ghost use Rattle.itch_codec.specs.Fields.{side_byte};
ghost use Rattle.itch_commands.specs.Forms.{head, level_line, row, title};
ghost use Rattle.itch_commands.specs.declared.form.BookForm.TheVariants.{Json, Csv};

use crate::form::BookForm;
use crate::line::Line;
use itch_codec::Side;

/// The lines of a book: their form, and the locate and the stock, which are in the title or in each line.
#[derive(Clone, Copy)]
pub struct Rows<'a> {
    pub form: BookForm,
    pub locate: u16,
    pub stock: &'a str,
}

/// Returns the heading of all books.
pub fn head(form: BookForm) -> Line
    ensures { result ≡ head form }
{
    let mut line = Line::new();
    match form {
        BookForm::Text | BookForm::Json => {}
        BookForm::Csv => line.text(b"locate,stock,side,price,shares,orders\n"),
    }
    line
}

impl Rows<'_> {
    /// Returns the title, which is before the lines of the prices.
    pub fn title(&self) -> Line
        requires { length self.now.stock.now ≤ 8 }
        ensures { result ≡ title self.now.form self.now.locate self.now.stock.now }
    {
        let mut line = Line::new();
        match self.form {
            BookForm::Text => {
                line.number(self.locate);
                line.text(b" ");
                line.text(self.stock.as_bytes());
                line.text(b"\n");
            }
            BookForm::Json | BookForm::Csv => {}
        }
        line
    }

    /// Returns the line of a price: all shares at it, and the number of its orders.
    pub fn row(&self, side: Side, price: u32, shares: u128, orders: u64) -> Line
        requires { length self.now.stock.now ≤ 8 }
        ensures { result ≡ row self.now.form self.now.locate self.now.stock.now side price shares orders }
    {
        match self.form {
            BookForm::Text => text_row(side, price, shares, orders),
            BookForm::Json => self.json_row(side, price, shares, orders),
            BookForm::Csv => self.csv_row(side, price, shares, orders),
        }
    }

    fn json_row(&self, side: Side, price: u32, shares: u128, orders: u64) -> Line
        requires { length self.now.stock.now ≤ 8 }
        ensures { result ≡ row Json self.now.locate self.now.stock.now side price shares orders }
    {
        let mut line = Line::new();
        line.text(b"{\"locate\":");
        line.number(self.locate);
        line.text(b",\"stock\":\"");
        line.json_text(self.stock.as_bytes());
        line.text(b"\",\"side\":\"");
        line.text(side_text(side));
        line.text(b"\",\"price\":\"");
        line.price(price);
        line.text(b"\",\"shares\":");
        line.number(shares);
        line.text(b",\"orders\":");
        line.number(orders);
        line.text(b"}\n");
        line
    }

    fn csv_row(&self, side: Side, price: u32, shares: u128, orders: u64) -> Line
        requires { length self.now.stock.now ≤ 8 }
        ensures { result ≡ row Csv self.now.locate self.now.stock.now side price shares orders }
    {
        let mut line = Line::new();
        line.number(self.locate);
        line.text(b",");
        line.csv_text(self.stock.as_bytes());
        line.text(b",");
        line.text(side_text(side));
        line.text(b",");
        line.price(price);
        line.text(b",");
        line.number(shares);
        line.text(b",");
        line.number(orders);
        line.text(b"\n");
        line
    }
}

fn text_row(side: Side, price: u32, shares: u128, orders: u64) -> Line
    ensures { result ≡ level_line side price shares orders }
{
    let mut line = Line::new();
    line.text(side_text(side));
    line.text(b" ");
    line.price(price);
    line.text(b" ");
    line.number(shares);
    line.text(b" ");
    line.number(orders);
    line.text(b"\n");
    line
}

fn side_text(side: Side) -> &'static [u8]
    ensures { result.now ≡ side_byte side ∷ [] }
{
    match side {
        Side::Buy => b"B",
        Side::Sell => b"S",
    }
}
