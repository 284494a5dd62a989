//! The token of an image that lies in a store.

ghost use Rattle.std.specs.Prelude.{◌≡◌, Decides};
ghost use Rattle.planner.specs.Token.{token_of};
ghost use Rattle.board.specs.Stored.{image_on};

use crate::reading::Stored;
use authenticator::{Authenticator, TAG_BUFFER, same};
use layout::{BLOCK, blocks_of};
use planner::Purpose;
use store::Store;

impl<S: Store> Stored<'_, S> {
    /// Whether `token` is the image's.
    pub(crate) fn is_token<K: Authenticator>(
        &self,
        authenticator: &mut K,
        token: &[u8],
        scratch: &mut [u8; BLOCK],
    ) -> bool
        ensures key { K.Authenticator.key authenticator.new ≡ K.Authenticator.key authenticator.old }
        ensures state { K.Authenticator.state authenticator.new ≡ K.Authenticator.means.begin (K.Authenticator.key authenticator.old) }
        ensures answer { Decides result (token.now ≡ token_of K.Authenticator.means (K.Authenticator.key authenticator.old) (image_on (S.Store.medium self.now.reader.store.now) self.now.place)) }
    {
        let mut tag = [0; TAG_BUFFER];
        authenticator.open();
        authenticator.feed(&[Purpose::Token.byte()]);
        self.feed(authenticator, scratch);
        match authenticator.close(&mut tag) {
            // The front of a buffer for the tag of any authenticator: there is no heap.
            Ok(()) => same(&tag[0..K::tag_len()], token),
            Err(_) => unreachable(),
        }
    }

    // Feeds the image, block by block.
    fn feed<K: Authenticator>(&self, authenticator: &mut K, scratch: &mut [u8; BLOCK])
        ensures key { K.Authenticator.key authenticator.new ≡ K.Authenticator.key authenticator.old }
        ensures state { K.Authenticator.state authenticator.new ≡ K.Authenticator.means.feeds (K.Authenticator.key authenticator.old) (K.Authenticator.state authenticator.old) (image_on (S.Store.medium self.now.reader.store.now) self.now.place) }
    {
        let len = self.place.len as usize;
        // By number: a store is read by the numbers of its blocks.
        for i in 0..blocks_of(self.place.len) {
            self.reader.fetch(self.place.first + i, scratch);
            let end = (len - i * BLOCK).min(BLOCK);
            authenticator.feed(&scratch[0..end]);
        }
    }
}
