// Sessions of channels, and the frames that go out for each input.
mod ending;
mod lent;
mod many;
mod requests;
mod windows;
