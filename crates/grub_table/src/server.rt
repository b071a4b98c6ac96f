//! The word of a server: its budget in bits 0 to 31, and its deadline in bits 32 to 63.

ghost use Rattle.std.specs.Prelude.{◌≡◌, ◌≢◌, ◌↔◌, IsTrue, IsNone, Some};
ghost use Rattle.grub_book.specs.declared.server.Server.{Server};
ghost use Rattle.grub_table.specs.Words.{server_word, ServerFits};

use crate::bits::{halves, join_halves};
use grub_book::{PERIOD_MAX, Server};

/// Whether the server has a word: its budget is 1 to 16777216.
pub fn server_fits(server: Server) -> bool
    ensures { IsTrue result ↔ ServerFits server }
{
    1 <= server.q && server.q <= PERIOD_MAX
}

/// The word of the server.
pub fn pack_server(server: Server) -> u64
    requires { ServerFits server }
    ensures { result ≡ server_word server }
{
    join_halves(server.q, server.d)
}

/// The one server that has this word; none where there is none.
pub fn unpack_server(word: u64) -> Option<Server>
    ensures found { (s : Server) → (result ≡ Some s) ↔ (ServerFits s × (server_word s ≡ word)) }
    ensures none { IsNone result ↔ ((s : Server) → ServerFits s → server_word s ≢ word) }
{
    let (q, d) = halves(word);
    let server = Server { q, d };
    if server_fits(server) {
        Some(server)
    } else {
        None
    }
}
