//! Offer: an image with its token.

ghost use Rattle.std.specs.Prelude.{◌≡◌, ◌≤◌, List, [], length, Ok, MatchResult};
ghost use Rattle.layout.specs.Header.{header_of};
ghost use Rattle.layout.specs.Placing.{Open};
ghost use Rattle.store.specs.Medium.{held};
ghost use Rattle.board.specs.Answers.{cleared};
ghost use Rattle.board.specs.Calls.{Offers, Takes};
ghost use Rattle.board.specs.Results.{offered};
ghost use Rattle.board.specs.Weighed.{Fails, Found, admitting, weighing, tried};
ghost use Rattle.board.specs.Writes.{Write};

use crate::buffers::clear;
use crate::reading::{Reader, Stored, header};
use crate::results::Denied;
use crate::states::{Matched, Running};
use crate::writes::read;
use authenticator::Authenticator;
use layout::{BLOCK, Header, Place, is_newer, is_open, shares};
use refusal::Refusal;
use store::Store;

impl Running {
    // Lent one by one, as the caller has them; cleared by a line at the end of the call (see `clear`).
    /// Offers the image that lies from block `first` on, with its token. Where that is the tag, the image may be
    /// installed.
    pub fn offer<S: Store, K: Authenticator>(
        self,
        store: &mut S,
        authenticator: &mut K,
        first: usize,
        token: &[u8],
        scratch: &mut [u8],
    ) -> Result<Matched, Denied<Running>>
        ensures key { K.Authenticator.key authenticator.new ≡ K.Authenticator.key authenticator.old }
        ensures call { (ws : List Write) × Offers K.Authenticator.means (K.Authenticator.key authenticator.old) self (S.Store.medium store.old) first token.now scratch.old (K.Authenticator.state authenticator.old) (offered ws result (S.Store.medium store.new)) scratch.new (K.Authenticator.state authenticator.new) }
    {
        let Some(scratch) = scratch.as_mut_array() else {
            return Err(Denied::Refused(self, Refusal::WrongLength));
        };
        let answer = self.examine(store, authenticator, first, token, scratch);
        clear(scratch);
        answer
    }

    // The answer, with what was read left in the scratch buffer.
    fn examine<S: Store, K: Authenticator>(
        self,
        store: &S,
        authenticator: &mut K,
        first: usize,
        token: &[u8],
        scratch: &mut [u8; BLOCK],
    ) -> Result<Matched, Denied<Running>>
        ensures key { K.Authenticator.key authenticator.new ≡ K.Authenticator.key authenticator.old }
        ensures call { Offers K.Authenticator.means (K.Authenticator.key authenticator.old) self (S.Store.medium store.now) first token.now scratch.old (K.Authenticator.state authenticator.old) (offered [] result (S.Store.medium store.now)) (cleared scratch.old) (K.Authenticator.state authenticator.new) }
    {
        if !is_open(first, store.count()) {
            return Err(Denied::Refused(self, Refusal::BlockRange));
        }
        if token.len() != K::tag_len() {
            return Err(Denied::Refused(self, Refusal::TagLength));
        }
        if let Err(supply) = read(store, first, scratch) {
            return Err(Denied::Supply(self.end(), supply));
        }
        let header = header(scratch);
        let reader = Reader { store };
        match self.weigh(reader, authenticator, first, header, token, scratch) {
            Ok(image) => Ok(self.take(image, header, scratch)),
            Err(refusal) => Err(Denied::Refused(self, refusal)),
        }
    }

    // The image that begins with `header`, if it may be installed and `token` is its token.
    fn weigh<'a, S: Store, K: Authenticator>(
        &self,
        reader: Reader<'a, S>,
        authenticator: &mut K,
        first: usize,
        header: Header,
        token: &[u8],
        scratch: &mut [u8; BLOCK],
    ) -> Result<Stored<'a, S>, Refusal>
        requires { (Open (length (S.Store.medium reader.store.now).blocks) first) × (header ≡ header_of (held (S.Store.medium reader.store.now) first)) }
        ensures key { K.Authenticator.key authenticator.new ≡ K.Authenticator.key authenticator.old }
        ensures state { K.Authenticator.state authenticator.new ≡ tried (K.Authenticator.means.begin (K.Authenticator.key authenticator.old)) result (K.Authenticator.state authenticator.old) }
        ensures answer { MatchResult result (λ image. (Found (weighing K.Authenticator.means (K.Authenticator.key authenticator.old) self.now (S.Store.medium reader.entry.store.now) first token.now) first header.len (Ok image.place)) × (image.reader.store.now ≡ reader.entry.store.now)) (λ refusal. Fails (weighing K.Authenticator.means (K.Authenticator.key authenticator.old) self.now (S.Store.medium reader.entry.store.now) first token.now) refusal) }
    {
        let place = self.admit(first, header, reader.count())?;
        let image = Stored { reader, place };
        if image.is_token(authenticator, token, scratch) {
            Ok(image)
        } else {
            Err(Refusal::WrongToken)
        }
    }

    // The place of the image that begins with `header`, if it may be installed.
    fn admit(&self, first: usize, header: Header, count: usize) -> Result<Place, Refusal>
        requires { 4 ≤ first }
        ensures { Found (admitting self.now count first header) first header.len result }
    {
        let Some(place) = Place::new(first, header.len, count) else {
            return Err(Refusal::BadImage);
        };
        if shares(first, header.len, self.place.first, self.place.len) {
            return Err(Refusal::RunningBlock);
        }
        if !is_newer(header.version, self.version) {
            return Err(Refusal::NotNewer);
        }
        Ok(place)
    }

    // Keeps the image, which begins with `header`, for an install.
    fn take<S: Store>(
        self,
        image: Stored<'_, S>,
        header: Header,
        scratch: &mut [u8; BLOCK],
    ) -> Matched
        requires { (header ≡ header_of (held (S.medium image.reader.store.now) image.place.first)) × (image.place.len ≡ header.len) }
        ensures { Takes self (S.medium image.entry.reader.store.now) image.entry.place.first result }
    {
        let vectors = image.vectors(scratch);
        let Header {
            len: _,
            version,
            nonce,
        } = header;
        Matched {
            running: self,
            place: image.place,
            version,
            nonce,
            vectors,
        }
    }
}
